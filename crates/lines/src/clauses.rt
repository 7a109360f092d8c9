// A clause's line: its literals, each with a space after it, a 0 and an LF.
ghost use Rattle.std.specs.Prelude.{◌+◌, ◌*◌, ◌≤◌, length};
ghost use Rattle.meaning.specs.WellFormed.{max_literals};
ghost use Rattle.qdimacs.specs.Write.{literal_text, clause_line};
ghost use Rattle.lines.specs.Written.{Room, Written, Sized};

use crate::bytes::{write_byte, write_end};
use crate::numbers::{number_size, write_number};

// How many bytes a literal takes.
pub fn literal_size(l: u16) -> usize
    ensures { Sized (literal_text l) 6 result }
{
    let n = number_size(l / 2);
    if l % 2 == 1 { n + 1 } else { n }
}

pub fn write_literal(out: &mut [u8], at: usize, l: u16) -> usize
    requires { Room (literal_text l) at out.old }
    ensures { Written (literal_text l) at out.old out.new result }
{
    if l % 2 == 1 {
        let digits = write_byte(out, at, b'-');
        return write_number(out, digits, l / 2);
    }
    write_number(out, at, l / 2)
}

// How many bytes a clause's line takes.
pub fn clause_size(clause: &[u16]) -> usize
    requires { length clause.now ≤ max_literals }
    ensures { Sized (clause_line clause.now) (7 * length clause.now + 2) result }
{
    let mut n = 0;
    for l in clause {
        n += literal_size(*l) + 1;
    }
    n + 2
}

pub fn write_clause(out: &mut [u8], start: usize, clause: &[u16]) -> usize
    requires { Room (clause_line clause.now) start out.old }
    ensures { Written (clause_line clause.now) start out.old out.new result }
{
    let mut at = start;
    for l in clause {
        at = write_literal(out, at, *l);
        at = write_byte(out, at, b' ');
    }
    write_end(out, at)
}
