// Standard input.
ghost use Rattle.std.specs.Prelude.{◌≤◌, length, IfOk};

use std::io;
use std::io::Read;

// The whole input, if it is no longer than a text may be; else one byte more, so that the reader sees that it is longer. It is put at the
// buffer's start, and the answer is how many bytes it has.
pub fn read_text(rt: &impl Input, buffer: &mut [u8; 65537]) -> io::Result<usize>
    ensures { IfOk result (λ n. n ≤ length buffer.new) }
{
    let mut input = rt.reader();
    let mut done = 0;
    while done < buffer.len() {
        let n = input.read(&mut buffer[done..])?;
        if n == 0 {
            break;
        }
        done += n;
    }
    Ok(done)
}
