// Reads stored texts, and writes for each: the answer's number, the offset, the three counts, some numbers of the first table,
// and how many numbers of each table are not zero. Both tables are dirty before each reading.
#![tactic(auto)]

use rimhlada::Reading;
use shows::used;
use std::{fmt, io};

mod cases;
mod texts;

// The two tables that each reading is lent.
#[derive(Drop)]
pub struct Tables {
    pub first: [u16; 11261],
    pub second: [u16; 11261],
}

// What a reading gives.
#[derive(Drop)]
pub struct Shown(pub Reading);

impl fmt::Display for Shown {
    fn fmt<W: fmt::Write>(&self, f: &mut fmt::Formatter<W>) -> fmt::Result {
        let number = self.0.answer.number();
        let offset = self.0.offset;
        let c = self.0.counts;
        let m = c.variables;
        let n = c.clauses;
        let k = c.literals;
        let second = if c.second { "second " } else { "" };
        write!(f, "{number} {offset} | {m} {n} {k} {second}")
    }
}

// One text.
pub fn show(rt: &impl Print, text: &str, tables: &mut Tables) -> io::Result<()> {
    let first = &mut tables.first;
    let second = &mut tables.second;
    first[11260] = 1;
    second[0] = 1;
    let shown = Shown(rimhlada::read(text.as_bytes(), first, second));
    print!(rt; "{shown}| ")?;
    for at in [0, 1, 1023, 1024, 3070, 3071, 3072] {
        let x = first[at];
        print!(rt; "{x} ")?;
    }
    let m = used(first);
    let n = used(second);
    println!(rt; "| {m} {n} ")
}

fn show_all(rt: &impl Print, title: &str, texts: &[&str], tables: &mut Tables) -> io::Result<()> {
    println!(rt; "{title}")?;
    for text in texts {
        show(rt, text, tables)?;
    }
    Ok(())
}

fn main(rt: HostRuntime) -> io::Result<()> {
    let mut tables = Tables {
        first: [0; 11261],
        second: [0; 11261],
    };
    show_all(&rt, "headers", &cases::HEADERS, &mut tables)?;
    show_all(&rt, "lines", &cases::LINES, &mut tables)?;
    show_all(&rt, "clauses", &cases::CLAUSES, &mut tables)?;
    show_all(&rt, "layouts", &cases::LAYOUTS, &mut tables)?;
    show_all(&rt, "limits", &cases::LIMITS, &mut tables)?;
    texts::built(&rt, &mut tables)?;
    cases::lengths(&rt, &mut tables)
}
