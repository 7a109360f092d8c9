// What each case shows.
use rimhlada::{Counts, WriteAnswer};
use shows::used;
use std::{fmt, io};

// The kinds of steps, by their numbers in an entry, and what is none.
#[derive(Clone, Copy)]
pub enum Kind {
    NoKind,
    Unit,
    Pure,
    Subsume,
    Strengthen,
    Equality,
    Resolve,
    Expand,
}

// The sum of a text: Adler-32.
fn sum(text: &[u8]) -> u64 {
    let mut a: u64 = 1;
    let mut b: u64 = 0;
    for x in text {
        a = (a + u64::from(*x)) % 65521;
        b = (b + a) % 65521;
    }
    b * 65536 + a
}

// A formula's text on one line, with a slash for a line end; of a long one the length and the sum.
#[derive(Drop)]
struct Line<'a>(&'a [u8]);

impl fmt::Display for Line<'_> {
    fn fmt<W: fmt::Write>(&self, f: &mut fmt::Formatter<W>) -> fmt::Result {
        let n = self.0.len();
        if 300 < n {
            let sum = sum(self.0);
            return write!(f, "{n} {sum} ");
        }
        for x in self.0 {
            f.write_char(if *x == b'\n' { '/' } else { char::from(*x) })?;
        }
        Ok(())
    }
}

// The formula that the record names.
fn show_formula(rt: &impl Print, first: &[u16], second: &[u16], c: Counts) -> io::Result<()> {
    let mut out = [0u8; 65536];
    let w = rimhlada::write(first, second, c, &mut out);
    match w.answer {
        WriteAnswer::Written => rt.println(Line(out.get(..w.bytes).unwrap_or(&[]))),
        WriteAnswer::Length | WriteAnswer::Malformed => rt.println("no formula"),
        WriteAnswer::NoRoom => rt.println("no room"),
    }
}

// A step, and what comes of it.
pub fn show_step(
    rt: &impl Print,
    first: &mut [u16],
    second: &mut [u16],
    c: Counts,
    entry: u32,
) -> io::Result<()> {
    let r = rimhlada::step(first, second, c, entry);
    let number = r.answer.number();
    let d = r.counts;
    let m = d.variables;
    let n = d.clauses;
    let k = d.literals;
    if d.second {
        let spare = used(first);
        print!(rt; "{number} second {m} {n} {k} {spare} ")?;
    } else {
        let spare = used(second);
        print!(rt; "{number} first {m} {n} {k} {spare} ")?;
    }
    show_formula(rt, first, second, d)
}

// The formula of a text in the first table.
fn from_first(rt: &impl Print, text: &str, entry: u32) -> io::Result<()> {
    let mut first = [0u16; 11261];
    let mut second = [0u16; 11261];
    let c = rimhlada::read(text.as_bytes(), &mut first, &mut second).counts;
    let mut spare = [65535u16; 11261];
    show_step(rt, &mut first, &mut spare, c, entry)
}

// The formula of a text in the second table.
fn from_second(rt: &impl Print, text: &str, entry: u32) -> io::Result<()> {
    let mut first = [0u16; 11261];
    let mut second = [0u16; 11261];
    let c = rimhlada::read(text.as_bytes(), &mut second, &mut first).counts;
    let mut spare = [65535u16; 11261];
    let d = Counts { second: true, ..c };
    show_step(rt, &mut spare, &mut second, d, entry)
}

// The step that an entry calls, from either table.
fn show_entry(rt: &impl Print, text: &str, entry: u32) -> io::Result<()> {
    from_first(rt, text, entry)?;
    from_second(rt, text, entry)
}

// The same, by the entry's bits.
pub fn show_bits(rt: &impl Print, text: &str, entry: u32) -> io::Result<()> {
    println!(rt; "{entry:08x}")?;
    show_entry(rt, text, entry)
}

// The same, by the entry's parts.
pub fn show(rt: &impl Print, text: &str, kind: Kind, a: u32, b: u32) -> io::Result<()> {
    let kind = kind as u32;
    println!(rt; "{kind} {a} {b} ")?;
    let entry = kind % 8 * 536870912 + a % 2048 * 262144 + b % 2048 * 128;
    show_entry(rt, text, entry)
}
