// The line `p cnf M C`.
ghost use Rattle.std.specs.Prelude.{[]};
ghost use Rattle.qdimacs.specs.Write.{header};
ghost use Rattle.lines.specs.Written.{Room, Written, Sized};

use crate::bytes::write_bytes;
use crate::numbers::{number_size, write_field};

pub fn header_size(m: u16, c: u16) -> usize
    ensures { Sized (header m c []) 18 result }
{
    number_size(m) + number_size(c) + 8
}

pub fn write_header(out: &mut [u8], start: usize, m: u16, c: u16) -> usize
    requires { Room (header m c []) start out.old }
    ensures { Written (header m c []) start out.old out.new result }
{
    let mut at = write_bytes(out, start, b"p cnf ");
    at = write_field(out, at, m, b' ');
    write_field(out, at, c, b'\n')
}
