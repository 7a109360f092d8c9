// A call, taken and answered.
use crate::inputs::{Stop, head_of, take_bytes, take_table};
use crate::operations::answer;
use crate::results::Output;
use shows::take_word;
use std::io::Read;

// One call: its tables and its bytes are taken into the first three, a table's bytes into raw, and the result is put into out.
// Kept: five parameters, since two fields of one struct can't be lent at once behind a reference yet.
pub fn serve_call(
    rt: &impl Print,
    input: &mut impl Read,
    first: &mut [u16; 12000],
    second: &mut [u16; 12000],
    bytes: &mut [u8; 70000],
    raw: &mut [u8; 24008],
    out: &mut Output,
) -> Result<(), Stop> {
    let mut head = [0u8; 50];
    input.read_exact(&mut head)?;
    let h = head_of(&head);
    if 1 < h.side {
        return Err(Stop::NoCall);
    }
    take_table(input, first, raw, h.size, h.used, 8)?;
    let n = take_word(raw, 2 * h.used) as usize;
    let used = take_word(raw, 2 * h.used + 4) as usize;
    take_table(input, second, raw, n, used, 4)?;
    let size = take_word(raw, 2 * used) as usize;
    take_bytes(input, bytes, size)?;
    out.clear();
    answer(
        h,
        &mut first[..h.size],
        &mut second[..n],
        &mut bytes[..size],
        out,
    )?;
    rt.write_all(out.as_slice())?;
    Ok(())
}
