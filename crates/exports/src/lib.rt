// The face for C and C++, as include/rimhlada.h declares it. A slice crosses as a pointer and a length; the record crosses as five
// numbers: the three counts, the table that holds the formula (0 the first, 1 the second), and one that is given back with the record.
// A fourth number over 1 is MALFORMED.
#![tactic(auto)]

mod records;

ghost use Rattle.std.specs.Prelude.{◌≡◌};
ghost use Rattle.exports.specs.Calls.{ReadCall, WriteCall, LiteralsCall, StepCall, RunCall, ReplayCall, ReasonCall, number_asked};

use records::{counts_in, give, side_number};

// Reads a text into the first table.
#[unsafe(no_mangle)]
pub extern "C" fn rimhlada_read(
    text: &[u8],
    first: &mut [u16],
    second: &mut [u16],
    counts: &mut [u64; 5],
) -> u8
    ensures { ReadCall text.now first.old second.old result first.new second.new counts.new }
{
    let x = rimhlada::read(text, first, second);
    give(counts, x.counts, x.offset);
    x.answer.number()
}

// Writes the formula as text.
#[unsafe(no_mangle)]
pub extern "C" fn rimhlada_write(
    first: &[u16],
    second: &[u16],
    counts: &mut [u64; 5],
    out: &mut [u8],
) -> u8
    ensures { WriteCall first.now second.now counts.old out.old result counts.new out.new }
{
    let Some(c) = counts_in(counts) else {
        counts[4] = 0;
        return side_number(first, second);
    };
    let x = rimhlada::write(first, second, c, out);
    give(counts, c, x.bytes);
    x.answer.number()
}

// Where the literals stand: which table, from where on, how many.
#[unsafe(no_mangle)]
pub extern "C" fn rimhlada_literals(
    first: &[u16],
    second: &[u16],
    counts: &[u64; 5],
    part: &mut [u64; 3],
)
    ensures { LiteralsCall first.now second.now counts.now part.new }
{
    let Some(c) = counts_in(counts) else {
        *part = [0, 0, 0];
        return;
    };
    let number = rimhlada::literals_number(first, second, c);
    if number != 0 {
        *part = [0, 0, 0];
        return;
    }
    let side = c.second as u64;
    *part = [side, 3070, c.literals as u64];
}

// The number of the call for the literals.
#[unsafe(no_mangle)]
pub extern "C" fn rimhlada_literals_number(first: &[u16], second: &[u16], counts: &[u64; 5]) -> u8
    ensures { result ≡ number_asked first.now second.now counts.now }
{
    let Some(asked) = counts_in(counts) else {
        return side_number(first, second);
    };
    rimhlada::literals_number(first, second, asked)
}

// One step, by its log entry.
#[unsafe(no_mangle)]
pub extern "C" fn rimhlada_step(
    first: &mut [u16],
    second: &mut [u16],
    counts: &mut [u64; 5],
    entry: u32,
) -> u8
    ensures { StepCall first.old second.old counts.old entry result first.new second.new counts.new }
{
    let Some(c) = counts_in(counts) else {
        counts[4] = 0;
        return side_number(first, second);
    };
    let x = rimhlada::step(first, second, c, entry);
    give(counts, x.counts, 0);
    x.answer.number()
}

// A run with an allowance, a limit of steps and a log.
#[unsafe(no_mangle)]
pub extern "C" fn rimhlada_run(
    first: &mut [u16],
    second: &mut [u16],
    counts: &mut [u64; 5],
    allowance: u64,
    limit: u64,
    log: &mut [u8],
) -> u8
    ensures { RunCall first.old second.old counts.old allowance limit log.old result first.new second.new counts.new log.new }
{
    let Some(c) = counts_in(counts) else {
        counts[4] = 0;
        return side_number(first, second);
    };
    let x = rimhlada::run(first, second, c, allowance as usize, limit as usize, log);
    give(counts, x.counts, x.steps);
    x.answer.number()
}

// The replay of a log.
#[unsafe(no_mangle)]
pub extern "C" fn rimhlada_replay(
    first: &mut [u16],
    second: &mut [u16],
    counts: &mut [u64; 5],
    log: &[u8],
) -> u8
    ensures { ReplayCall first.old second.old counts.old log.now result first.new second.new counts.new }
{
    let Some(c) = counts_in(counts) else {
        counts[4] = 0;
        return side_number(first, second);
    };
    let x = rimhlada::replay(first, second, c, log);
    give(counts, x.counts, x.applied);
    x.answer.number()
}

// Why a variable is left: the kind of the reason is given with the record, the values that it names are put into the three numbers.
#[unsafe(no_mangle)]
pub extern "C" fn rimhlada_reason(
    first: &mut [u16],
    second: &mut [u16],
    counts: &mut [u64; 5],
    variable: u64,
    allowance: u64,
    values: &mut [u64; 3],
) -> u8
    ensures { ReasonCall first.old second.old counts.old variable allowance result first.new second.new counts.new values.new }
{
    let Some(c) = counts_in(counts) else {
        counts[4] = 0;
        *values = [0, 0, 0];
        return side_number(first, second);
    };
    let x = rimhlada::reason(first, second, c, variable as usize, allowance as usize);
    let kind = rimhlada::reason_kind(x.answer);
    give(counts, x.counts, kind);
    rimhlada::reason_values(values, x.answer);
    x.answer.number()
}
