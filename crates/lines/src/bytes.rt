// Bytes into a lent buffer. Each writer of this crate gives the place after what it wrote.
ghost use Rattle.std.specs.Prelude.{[], ◌∷◌};
ghost use Rattle.lines.specs.Written.{Room, Written};
ghost use Rattle.lines.specs.Texts.{end_text};

pub fn write_byte(out: &mut [u8], at: usize, b: u8) -> usize
    requires { Room (b ∷ []) at out.old }
    ensures { Written (b ∷ []) at out.old out.new result }
{
    out[at] = b;
    at + 1
}

pub fn write_bytes(out: &mut [u8], start: usize, text: &[u8]) -> usize
    requires { Room text.now start out.old }
    ensures { Written text.now start out.old out.new result }
{
    let end = start + text.len();
    out[start..end].copy_from_slice(text);
    end
}

// The end of a line of numbers: a 0 and an LF.
pub fn write_end(out: &mut [u8], start: usize) -> usize
    requires { Room end_text start out.old }
    ensures { Written end_text start out.old out.new result }
{
    write_bytes(out, start, b"0\n")
}
