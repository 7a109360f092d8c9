// Long texts, put together in a text of fixed room; what has no room is left out.
use crate::{Tables, show};
use arrayvec::ArrayString;
use std::fmt::Write;
use std::io;

// A text of at most 65,537 bytes, as its type says.
type Text = ArrayString<65537>;

// The numbers 10 to 99, the first n of them with a minus, and a 0.
fn push_numbers(text: &mut Text, n: u8) {
    for v in 10u8..100 {
        let minus = if v - 10 < n { "-" } else { "" };
        let _fits = write!(text, "{minus}{v} ");
    }
    let _fits = text.try_push_str("0\n");
}

// 8,190 literals in 91 clauses, all different, and then the rest.
fn many(text: &mut Text, header: &str, rest: &str) {
    text.clear();
    let _fits = text.try_push_str(header);
    push_numbers(text, 0);
    for n in 0..=90 {
        push_numbers(text, n);
    }
    let _fits = text.try_push_str(rest);
}

// A front, a middle n times, a back.
fn thrice(text: &mut Text, front: &str, middle: &str, n: usize, back: &str) {
    text.clear();
    let _fits = text.try_push_str(front);
    for _ in 0..n {
        let _fits = text.try_push_str(middle);
    }
    let _fits = text.try_push_str(back);
}

// Many literals, clauses, repeats, comments, digits; a text of 65,536 bytes and one of 65,537.
pub fn built(rt: &impl Print, tables: &mut Tables) -> io::Result<()> {
    println!(rt; "built")?;
    let mut text = Text::new();
    for (header, rest) in [
        ("p cnf 99 92 e ", "10 0"),
        ("p cnf 99 93 e ", "10 0 11 0"),
        ("p cnf 99 93 e ", "10 0 -99 10 -99 -98 0 x"),
        ("p cnf 99 93 e ", "10 0 10 0"),
    ] {
        many(&mut text, header, rest);
        show(rt, text.as_str(), tables)?;
    }
    for (front, middle, n, back) in [
        ("p cnf 3 1 e 1 2 3 0 ", "3 1 ", 8000, "-2 0"),
        ("p cnf 3 1 e 1 2 3 0 ", "3 1 ", 8000, "-1 0"),
        ("p cnf 1 2047 a 1 0 ", "0 ", 2047, ""),
        ("p cnf 1 2047 a 1 0 ", "0 ", 2047, "0"),
        ("p cnf 1 2047 a 1 0 ", "0 ", 2046, ""),
        ("c", " comment", 8000, "\np cnf 1 1 e 1 0 -1 0"),
        ("p cnf 1 1 e 1 0 ", "1", 60000, " 0"),
        ("p cnf 1 1 e 1 0 -1 0", " ", 65516, ""),
        ("p cnf 1 1 e 1 0 -1 0", " ", 65517, ""),
    ] {
        thrice(&mut text, front, middle, n, back);
        show(rt, text.as_str(), tables)?;
    }
    Ok(())
}
