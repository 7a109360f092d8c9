// The program: a formula in QDIMACS on standard input; a run with E = 0, and room for 8,192 steps; the outcome, the number of
// steps and the formula that is left on standard output. What is refused in reading is printed as `r`, number and offset.
#![tactic(auto)]

use rimhlada::{Counts, Reading, RunAnswer};
use std::{fmt, io};

// An outcome, shown by its word. The tables come from the reader and E is 0, so no refusal is seen.
#[derive(Drop)]
struct Outcome(RunAnswer);

impl fmt::Display for Outcome {
    fn fmt<W: fmt::Write>(&self, f: &mut fmt::Formatter<W>) -> fmt::Result {
        f.write_str(match self.0 {
            RunAnswer::True => "TRUE",
            RunAnswer::False => "FALSE",
            RunAnswer::Finished => "FINISHED",
            RunAnswer::OutOfRoom => "OUT OF ROOM",
            RunAnswer::Stopped => "STOPPED",
            RunAnswer::Length => "LENGTH",
            RunAnswer::Malformed => "MALFORMED",
            RunAnswer::Allowance => "ALLOWANCE",
        })
    }
}

// A written formula is at most 62,463 bytes long, so there is room for it.
fn show_formula(rt: &impl Print, first: &[u16], second: &[u16], c: Counts) -> io::Result<()> {
    let mut out = [0u8; 65536];
    let w = rimhlada::write(first, second, c, &mut out);
    rt.write_all(out.get(..w.bytes).unwrap_or(&[]))
}

fn show_run(
    rt: &impl Print,
    first: &mut [u16; 11261],
    second: &mut [u16; 11261],
    c: Counts,
) -> io::Result<()> {
    let mut log = [0u8; 32768];
    let r = rimhlada::run(first, second, c, 0, 8192, &mut log);
    let outcome = Outcome(r.answer);
    let steps = r.steps;
    println!(rt; "c {outcome} {steps}")?;
    show_formula(rt, first, second, r.counts)
}

// One byte more than a text may have, so that a longer one is seen.
fn read_input(
    rt: &impl Input,
    first: &mut [u16; 11261],
    second: &mut [u16; 11261],
) -> io::Result<Reading> {
    let mut text = [0u8; 65537];
    let n = shows::read_text(rt, &mut text)?;
    Ok(rimhlada::read(&text[..n], first, second))
}

fn main(rt: HostRuntime) -> io::Result<()> {
    let mut first = [0u16; 11261];
    let mut second = [0u16; 11261];
    let r = read_input(&rt, &mut first, &mut second)?;
    let number = r.answer.number();
    let offset = r.offset;
    if number != 0 {
        return println!(&rt; "r {number} {offset}");
    }
    show_run(&rt, &mut first, &mut second, r.counts)
}
