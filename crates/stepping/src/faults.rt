// Calls that are refused whatever the formula: bad entries, tables of another length, records and tables that are no formula.
ghost use Rattle.std.specs.Prelude.{◌<◌};

use crate::showing::{Kind, show, show_bits, show_step};
use rimhlada::Counts;
use std::io;

// The clause (2) is a unit, 1 is pure, 2 can be resolved, 1 expanded, clause 0 subsumes 3 and strengthens 2.
pub fn bad_entries(rt: &impl Print) -> io::Result<()> {
    println!(rt; "bad entries")?;
    let t = "p cnf 3 4 a 1 0 e 2 3 0 2 0 1 3 0 -2 -3 0 2 3 0";
    // no kind
    show(rt, t, Kind::NoKind, 0, 0)?;
    show(rt, t, Kind::NoKind, 1, 1)?;
    // b is not used
    show(rt, t, Kind::Unit, 0, 1)?;
    show(rt, t, Kind::Pure, 1, 2047)?;
    show(rt, t, Kind::Resolve, 2, 1024)?;
    show(rt, t, Kind::Expand, 1, 1)?;
    // and nothing is there at a
    show(rt, t, Kind::Unit, 2047, 1)
}

// The same calls with nothing wrong.
pub fn good_entries(rt: &impl Print) -> io::Result<()> {
    println!(rt; "good entries")?;
    let t = "p cnf 3 4 a 1 0 e 2 3 0 2 0 1 3 0 -2 -3 0 2 3 0";
    show(rt, t, Kind::Unit, 0, 0)?;
    show(rt, t, Kind::Pure, 1, 0)?;
    show(rt, t, Kind::Resolve, 2, 0)?;
    show(rt, t, Kind::Expand, 1, 0)
}

// The low seven bits.
pub fn low_bits(rt: &impl Print) -> io::Result<()> {
    println!(rt; "low bits")?;
    let t = "p cnf 3 4 a 1 0 e 2 3 0 2 0 1 3 0 -2 -3 0 2 3 0";
    show_bits(rt, t, 0x20000001)?;
    show_bits(rt, t, 0x40040040)?;
    show_bits(rt, t, 0x6000017f)?;
    show_bits(rt, t, 0x60000180)?;
    show_bits(rt, t, 0x80000110)?;
    show_bits(rt, t, 0x80000100)?;
    show_bits(rt, t, 0xffffffff)?;
    show_bits(rt, t, 0x00000001)
}

// A table one number short, one number long, or with none; the other holds a formula.
pub fn lengths(rt: &impl Print) -> io::Result<()> {
    println!(rt; "lengths")?;
    let mut first = [0u16; 11261];
    let mut second = [0u16; 11261];
    let r = rimhlada::read(b"p cnf 1 1 e 1 0 1 0", &mut first, &mut second);
    let c = r.counts;
    let mut short = [7u16; 11260];
    let mut long = [7u16; 11262];
    let mut none = [0u16; 0];
    show_step(rt, &mut first, &mut short, c, 0x20000000)?;
    show_step(rt, &mut first, &mut long, c, 0x20000000)?;
    show_step(rt, &mut first, &mut none, c, 0x20000000)?;
    show_step(rt, &mut short, &mut first, c, 0x20000000)?;
    show_step(rt, &mut long, &mut first, c, 0x20000000)?;
    // with a bad entry, and with one that is not permitted
    show_step(rt, &mut first, &mut short, c, 0)?;
    show_step(rt, &mut first, &mut short, c, 0x20040000)
}

// With another record than the formula's.
fn with_record(rt: &impl Print, c: Counts, entry: u32) -> io::Result<()> {
    let mut first = [0u16; 11261];
    let mut spare = [0u16; 11261];
    rimhlada::read(
        b"p cnf 3 2 e 1 0 a 2 0 e 3 0 1 2 3 0 -2 -3 0",
        &mut first,
        &mut spare,
    );
    let mut junk = [65535u16; 11261];
    show_step(rt, &mut first, &mut junk, c, entry)
}

// The formula's own record.
fn own() -> Counts {
    Counts {
        variables: 3,
        clauses: 2,
        literals: 5,
        second: false,
    }
}

// With variables, clauses or literals in another number.
fn with_variables(rt: &impl Print, variables: usize, entry: u32) -> io::Result<()> {
    with_record(rt, Counts { variables, ..own() }, entry)
}

fn with_clauses(rt: &impl Print, clauses: usize, entry: u32) -> io::Result<()> {
    with_record(rt, Counts { clauses, ..own() }, entry)
}

fn with_literals(rt: &impl Print, literals: usize, entry: u32) -> io::Result<()> {
    with_record(rt, Counts { literals, ..own() }, entry)
}

pub fn records(rt: &impl Print) -> io::Result<()> {
    println!(rt; "records")?;
    // the formula's own, and pure 1
    with_record(rt, own(), 0x40040000)?;
    // one off
    with_variables(rt, 2, 0x40040000)?;
    with_variables(rt, 4, 0x40040000)?;
    with_clauses(rt, 1, 0x40040000)?;
    with_clauses(rt, 3, 0x40040000)?;
    with_literals(rt, 4, 0x40040000)?;
    with_literals(rt, 6, 0x40040000)
}

// Over the limits; naming the junk; with a bad entry, and with one that is not permitted.
pub fn wild_records(rt: &impl Print) -> io::Result<()> {
    println!(rt; "wild records")?;
    with_variables(rt, 1024, 0x40040000)?;
    with_clauses(rt, 2048, 0x40040000)?;
    with_literals(rt, 8192, 0x40040000)?;
    with_variables(rt, usize::MAX, 0x40040000)?;
    with_clauses(rt, usize::MAX, 0x40040000)?;
    with_literals(rt, usize::MAX, 0x40040000)?;
    with_record(
        rt,
        Counts {
            second: true,
            ..own()
        },
        0x40040000,
    )?;
    with_variables(rt, 2, 0)?;
    with_variables(rt, 2, 0x20000000)
}

// With the number x at a place of the table.
fn with_number(rt: &impl Print, at: usize, x: u16) -> io::Result<()>
    requires { at < 11261 }
{
    let mut first = [0u16; 11261];
    let mut spare = [0u16; 11261];
    let r = rimhlada::read(
        b"p cnf 4 3 e 1 0 a 2 0 e 3 4 0 1 3 0 1 4 0 -2 3 0",
        &mut first,
        &mut spare,
    );
    let c = r.counts;
    first[at] = x;
    let mut junk = [65535u16; 11261];
    show_step(rt, &mut first, &mut junk, c, 0x40040000)
}

// In the prefix: its own number; another quantifier, a variable twice, none, one over 1,023, a place that is not used.
pub fn prefixes(rt: &impl Print) -> io::Result<()> {
    println!(rt; "prefixes")?;
    with_number(rt, 0, 2)?;
    with_number(rt, 0, 3)?;
    with_number(rt, 0, 4)?;
    with_number(rt, 0, 0)?;
    with_number(rt, 0, 2048)?;
    with_number(rt, 4, 10)
}

// In the ends: one that falls, another split, the last, a place that is not used.
pub fn ends(rt: &impl Print) -> io::Result<()> {
    println!(rt; "ends")?;
    with_number(rt, 1023, 5)?;
    with_number(rt, 1023, 1)?;
    with_number(rt, 1025, 7)?;
    with_number(rt, 1026, 6)
}

// In the literals: a variable twice, both phases, not ascending, not in the prefix, a universal at the right, an equal clause, a
// place that is not used, and another phase.
pub fn literals(rt: &impl Print) -> io::Result<()> {
    println!(rt; "literals")?;
    with_number(rt, 3070, 6)?;
    with_number(rt, 3070, 7)?;
    with_number(rt, 3070, 8)?;
    with_number(rt, 3071, 10)?;
    with_number(rt, 3071, 4)?;
    with_number(rt, 3073, 6)?;
    with_number(rt, 3076, 2)?;
    with_number(rt, 11260, 1)?;
    with_number(rt, 3071, 7)
}
