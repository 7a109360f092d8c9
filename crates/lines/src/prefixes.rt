// The quantifier lines of a prefix: one for each stretch of equal quantifiers.
ghost use Rattle.std.specs.Prelude.{◌≡◌, [], ◌∷◌, ◌*◌, ◌≤◌, length};
ghost use Rattle.meaning.specs.WellFormed.{max_variables};
ghost use Rattle.qdimacs.specs.Write.{letter, largest, prefix_lines};
ghost use Rattle.lines.specs.Written.{Room, Written, Sized};
ghost use Rattle.lines.specs.Texts.{first_text, entry_text};

use crate::bytes::{write_byte, write_end};
use crate::numbers::{number_size, write_field};

// The largest variable of a prefix, 0 if it has none.
pub fn largest_variable(prefix: &[u16]) -> u16
    ensures { result ≡ largest prefix.now }
{
    let mut m: u16 = 0;
    for e in prefix {
        m = m.max(*e / 2);
    }
    m
}

// `a` for a universal, `e` for an existential.
pub fn write_letter(out: &mut [u8], at: usize, e: u16) -> usize
    requires { Room (letter e ∷ []) at out.old }
    ensures { Written (letter e ∷ []) at out.old out.new result }
{
    if e % 2 == 1 {
        return write_byte(out, at, b'a');
    }
    write_byte(out, at, b'e')
}

// The first entry of a line: its letter stands before it.
pub fn write_first(out: &mut [u8], start: usize, e: u16) -> usize
    requires { Room (first_text e) start out.old }
    ensures { Written (first_text e) start out.old out.new result }
{
    let mut at = write_letter(out, start, e);
    at = write_byte(out, at, b' ');
    write_field(out, at, e / 2, b' ')
}

// The entry after q: where the quantifier is another, the line ends and a new one begins.
pub fn write_entry(out: &mut [u8], start: usize, q: u16, e: u16) -> usize
    requires { Room (entry_text q e) start out.old }
    ensures { Written (entry_text q e) start out.old out.new result }
{
    if q % 2 == e % 2 {
        return write_field(out, start, e / 2, b' ');
    }
    let at = write_end(out, start);
    write_first(out, at, e)
}

pub fn write_prefix(out: &mut [u8], start: usize, prefix: &[u16]) -> usize
    requires { Room (prefix_lines prefix.now) start out.old }
    ensures { Written (prefix_lines prefix.now) start out.old out.new result }
{
    let [first, rest @ ..] = prefix else {
        return start;
    };
    let mut last = *first;
    let mut at = write_first(out, start, last);
    for e in rest {
        at = write_entry(out, at, last, *e);
        last = *e;
    }
    write_end(out, at)
}

// What an entry takes after q.
pub fn entry_size(q: u16, e: u16) -> usize
    ensures { Sized (entry_text q e) 10 result }
{
    let n = number_size(e / 2) + 1;
    if q % 2 == e % 2 { n } else { n + 4 }
}

// How many bytes the quantifier lines take.
pub fn prefix_size(prefix: &[u16]) -> usize
    requires { length prefix.now ≤ max_variables }
    ensures { Sized (prefix_lines prefix.now) (10 * length prefix.now) result }
{
    let [first, rest @ ..] = prefix else {
        return 0;
    };
    let mut last = *first;
    let mut n = number_size(last / 2) + 3;
    for e in rest {
        n += entry_size(last, *e);
        last = *e;
    }
    n + 2
}
