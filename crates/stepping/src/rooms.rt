// Results that just fit, and results that just don't, from texts that are put together; what has no room in a text is left out.
use crate::showing::{Kind, show};
use arrayvec::ArrayString;
use std::fmt::Write;
use std::io;
use std::ops::Range;

// A text of at most 65,536 bytes, as its type says.
type Text = ArrayString<65536>;

// A part of a text.
fn push(text: &mut Text, part: &str) {
    let _fits = text.try_push_str(part);
}

// Numbers, each between two texts.
fn push_all(text: &mut Text, front: &str, numbers: Range<u32>, back: &str) {
    for v in numbers {
        let _fits = write!(text, "{front}{v}{back}");
    }
}

// Some words, some numbers and a 0: a quantifier line or a clause.
fn push_line(text: &mut Text, front: &str, numbers: Range<u32>) {
    push(text, front);
    push_all(text, " ", numbers, "");
    push(text, " 0\n");
}

// Variables: copies of the existentials of the first line.
fn expand_over(
    rt: &impl Print,
    front: &str,
    existentials: Range<u32>,
    back: &str,
    u: u32,
) -> io::Result<()> {
    let mut text = Text::new();
    push_line(&mut text, front, existentials);
    push(&mut text, back);
    show(rt, text.as_str(), Kind::Expand, u, 0)
}

pub fn variables(rt: &impl Print) -> io::Result<()> {
    println!(rt; "room for variables")?;
    // copies 513 to 1,023; copies to 1,024, with 1,023 variables and with 1,024
    expand_over(rt, "p cnf 512 2 a 1 0 e", 2..513, "1 2 0 -1 512 0", 1)?;
    expand_over(
        rt,
        "p cnf 513 2 e 513 0 a 1 0 e",
        2..513,
        "1 2 0 -1 512 0",
        1,
    )?;
    expand_over(rt, "p cnf 513 2 a 1 0 e", 2..514, "1 2 0 -1 513 0", 1)?;
    // 1,023 is taken; copies 1 to 511
    expand_over(
        rt,
        "p cnf 1023 2 e 1023 0 a 1 0 e",
        2..513,
        "1 2 0 -1 512 0",
        1,
    )?;
    expand_over(
        rt,
        "p cnf 1023 2 a 1023 0 e",
        512..1023,
        "1023 512 0 -1023 1022 0",
        1023,
    )
}

// Clauses: 46 with 1, 44 with its opposite, and those of one literal from 92 to below `to`.
fn resolve_across(rt: &impl Print, front: &str, to: u32, back: &str) -> io::Result<()> {
    let mut text = Text::new();
    push_line(&mut text, front, 1..to);
    push_all(&mut text, "1 ", 2..48, " 0\n");
    push_all(&mut text, "-1 ", 48..92, " 0\n");
    push_all(&mut text, "", 92..to, " 0\n");
    push(&mut text, back);
    show(rt, text.as_str(), Kind::Resolve, 1, 0)
}

// The clauses of each of the numbers and i.
fn push_row(text: &mut Text, i: u32, numbers: Range<u32>) {
    for v in numbers {
        let _fits = write!(text, "{v} {i} 0\n");
    }
}

// 1,023 clauses of two literals, which double, and then some more.
fn expand_rows(rt: &impl Print, front: &str, back: &str) -> io::Result<()> {
    let mut text = Text::new();
    push_line(&mut text, front, 2..66);
    for i in 2..33 {
        push_row(&mut text, i, 34..66);
    }
    push_row(&mut text, 33, 34..65);
    push(&mut text, back);
    show(rt, text.as_str(), Kind::Expand, 1, 0)
}

pub fn clauses(rt: &impl Print) -> io::Result<()> {
    println!(rt; "room for clauses")?;
    // 2,047 and 2,048; one more that merges with a resolvent, and one that doesn't
    resolve_across(rt, "p cnf 114 113 e", 115, "")?;
    resolve_across(rt, "p cnf 115 114 e", 116, "")?;
    resolve_across(rt, "p cnf 114 114 e", 115, "48 2 0")?;
    resolve_across(rt, "p cnf 114 114 e", 115, "48 -2 0")?;
    // 2,047 and 2,048
    expand_rows(rt, "p cnf 66 1024 e 66 0 a 1 0 e", "66 0")?;
    expand_rows(rt, "p cnf 66 1025 e 66 0 a 1 0 e", "66 0 -66 0")
}

// 63 clauses of 66 literals, each with -1.
fn push_heavy(text: &mut Text) {
    for middle in 66..129 {
        push(text, "-1");
        push_all(text, " -", 65..middle, "");
        push_line(text, "", middle..130);
    }
}

// Literals: the clause of 1 to 64, one of -1 and the numbers from `from` to 129, those 63, and one more.
fn resolve_heavy(rt: &impl Print, front: &str, from: u32, last: &str, to: u32) -> io::Result<()> {
    let mut text = Text::new();
    push_line(&mut text, front, 1..130);
    push_line(&mut text, "1", 2..65);
    push_line(&mut text, "-1", from..130);
    push_heavy(&mut text);
    push_line(&mut text, last, 66..to);
    show(rt, text.as_str(), Kind::Resolve, 1, 0)
}

pub fn literals(rt: &impl Print) -> io::Result<()> {
    println!(rt; "room for literals")?;
    // 8,191 and 8,192; the last clause is empty
    resolve_heavy(rt, "p cnf 129 66 e", 66, "", 66)?;
    resolve_heavy(rt, "p cnf 129 66 e", 65, "", 66)?;
    // with 8,191, a resolvent that merges with the first one, one with both phases, and one that does neither
    resolve_heavy(rt, "p cnf 129 66 e", 66, "-1 2", 130)?;
    resolve_heavy(rt, "p cnf 129 66 e", 66, "-1 -2", 130)?;
    resolve_heavy(rt, "p cnf 129 66 e", 66, "-1 65", 130)
}
