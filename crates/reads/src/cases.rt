// Stored texts.
use crate::{Shown, Tables, show};
use std::io;

// Before the first line.
pub static HEADERS: [&str; 12] = [
    "",
    " \n",
    "c only a comment",
    "p",
    "q cnf 0 0",
    "p dnf 0 0",
    "p cnf",
    "p cnf -1 0",
    "p cnf 01 0",
    "p cnf 1 x",
    "p cnf 0 0",
    "p cnf 0 1 0",
];

// In quantifier lines.
pub static LINES: [&str; 11] = [
    "p cnf 2 0 e 0",
    "p cnf 2 0 e 1 3 0",
    "p cnf 2 0 e 1 0 a 1 0",
    "p cnf 2 0 e 1 1 0",
    "p cnf 2 0 e -1 0",
    "p cnf 2 0 e 1",
    "p cnf 2 0 e 1 a",
    "p cnf 2 0 e 2 0 a 1 0",
    "p cnf 2 0 e 1 0 2",
    "p cnf 2 0 x",
    "p cnf 2 1 x",
];

// In clauses.
pub static CLAUSES: [&str; 13] = [
    "p cnf 1 1 a 1 0 1 0",
    "p cnf 1 1 e 1 0 1 -1 0",
    "p cnf 3 2 e 1 2 3 0 3 -1 2 3 0 -1 2 3 0",
    "p cnf 3 2 a 1 0 e 2 0 1 2 0 -1 -2 0",
    "p cnf 3 2 e 1 0 1 2 0",
    "p cnf 3 2 e 1 0 1 4 0",
    "p cnf 3 2 e 1 0 1 -0 0",
    "p cnf 3 2 e 1 0 1 0 e 2 0",
    "p cnf 3 2 e 1 0 1 0 1",
    "p cnf 3 2 e 1 0 1 0",
    "p cnf 3 1 e 1 0 1 0 1",
    "p cnf 3 1 e 1 0 1 0 %",
    "p cnf 3 1 e 1 0 2 0",
];

// Blanks, line ends, comments.
pub static LAYOUTS: [&str; 6] = [
    "c a\nc b\np cnf 2 1\ne 1 2 0\n1 -2 0\n",
    "c a\r\np cnf 2 1\r\ne 1 2 0\r\n1 -2 0\r\n",
    "comment\n\tp cnf 2 1\te\t1 2 0 1 -2\n0",
    "p cnf 2 1 e 1 2 0 c 1 -2 0",
    "p\ncnf\n2\n1\ne\n1\n0\ne\n2\n0\n-2\n1\n0\n",
    "p cnf 2 1 e 1 2 0 1 -2 0\n\0",
];

// At the limits of M and C.
pub static LIMITS: [&str; 7] = [
    "p cnf 1023 0",
    "p cnf 1024 0",
    "p cnf 1023 0 e 1023 0",
    "p cnf 1023 0 e 1024 0",
    "p cnf 0 2047",
    "p cnf 0 2048",
    "p cnf 99999999999999999999999999999999999999999 0",
];

// Tables of another length: nothing is written.
pub fn lengths(rt: &impl Print, tables: &mut Tables) -> io::Result<()> {
    println!(rt; "lengths")?;
    let mut short = [7u16; 3];
    let first = &mut tables.first;
    let second = &mut tables.second;
    rt.print(Shown(rimhlada::read(b"p cnf 0 0", &mut short, second)))?;
    rt.print(Shown(rimhlada::read(b"p cnf 0 0", first, &mut short)))?;
    rt.print(Shown(rimhlada::read(b"x", &mut short, second)))?;
    let last = short[2];
    println!(rt; "{last} ")?;
    show(rt, "p cnf 0 0", tables)
}
