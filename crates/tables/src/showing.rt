// What is printed.
use judging::Unfit;
use std::io;
use table::Counts;

// The counts, on a line of their own.
pub fn say_counts(rt: &impl Print, c: Counts) -> io::Result<()> {
    let m = c.variables;
    let n = c.clauses;
    let k = c.literals;
    println!(rt; "{m} variables, {n} clauses, {k} literals")
}

// Whether the table is good for the counts.
pub fn say_good(rt: &impl Print, t: &[u16], c: Counts) -> io::Result<()> {
    if judging::well_formed(t, c) {
        println!(rt; "well formed")
    } else {
        println!(rt; "malformed")
    }
}

// What is said of a call for the literals, and what it gives.
pub fn say_literals(rt: &impl Print, first: &[u16], second: &[u16], c: Counts) -> io::Result<()> {
    match judging::literals_answer(first, second, c) {
        Ok(()) => print!(rt; "given:")?,
        Err(Unfit::WrongLength) => print!(rt; "wrong length:")?,
        Err(Unfit::Malformed) => print!(rt; "malformed:")?,
    }
    for l in judging::literals_part(first, second, c) {
        print!(rt; " {l}")?;
    }
    println!(rt)
}
