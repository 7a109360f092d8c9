// Numbers, in decimal, and a number with the byte after it.
ghost use Rattle.qdimacs.specs.Write.{decimal};
ghost use Rattle.lines.specs.Written.{Room, Written, Sized};
ghost use Rattle.lines.specs.Texts.{field_text};

use crate::bytes::write_byte;

// How many digits a number has.
pub fn number_size(n: u16) -> usize
    ensures { Sized (decimal n) 5 result }
{
    match n {
        0..=9 => 1,
        10..=99 => 2,
        100..=999 => 3,
        1000..=9999 => 4,
        _ => 5,
    }
}

pub fn write_number(out: &mut [u8], at: usize, n: u16) -> usize
    requires { Room (decimal n) at out.old }
    ensures { Written (decimal n) at out.old out.new result }
{
    if n < 10 {
        return write_byte(out, at, b'0' + (n as u8));
    }
    let last = write_number(out, at, n / 10);
    write_byte(out, last, b'0' + ((n % 10) as u8))
}

// A number and the byte b.
pub fn write_field(out: &mut [u8], start: usize, n: u16, b: u8) -> usize
    requires { Room (field_text n b) start out.old }
    ensures { Written (field_text n b) start out.old out.new result }
{
    let at = write_number(out, start, n);
    write_byte(out, at, b)
}
