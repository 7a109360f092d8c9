// The operations of the face, each with its result put together.
use crate::inputs::{Head, Stop};
use crate::results::{Output, put_front, put_part, put_rest, put_values};

// The operations, by their numbers in a call.
#[derive(Drop)]
enum Operation {
    Read,
    Write,
    Literals,
    Step,
    Run,
    Replay,
    Reason,
}

impl TryFrom<u8> for Operation {
    type Error = Stop;

    fn try_from(number: u8) -> Result<Operation, Stop> {
        match number {
            1 => Ok(Operation::Read),
            2 => Ok(Operation::Write),
            3 => Ok(Operation::Literals),
            4 => Ok(Operation::Step),
            5 => Ok(Operation::Run),
            6 => Ok(Operation::Replay),
            7 => Ok(Operation::Reason),
            _ => Err(Stop::NoCall),
        }
    }
}

// No entry has more than 32 bits.
fn entry_of(a: u64) -> Result<u32, Stop> {
    match u32::try_from(a) {
        Ok(entry) => Ok(entry),
        Err(_) => Err(Stop::NoCall),
    }
}

// The result of the call.
pub fn answer(
    h: Head,
    first: &mut [u16],
    second: &mut [u16],
    bytes: &mut [u8],
    out: &mut Output,
) -> Result<(), Stop> {
    let c = h.counts;
    match Operation::try_from(h.operation)? {
        Operation::Read => {
            let r = rimhlada::read(bytes, first, second);
            put_front(out, r.answer.number(), r.counts, r.offset);
            put_rest(out, first, second, b"");
        }
        Operation::Write => {
            let w = rimhlada::write(first, second, c, bytes);
            put_front(out, w.answer.number(), c, w.bytes);
            put_rest(out, first, second, bytes);
        }
        Operation::Literals => {
            let number = rimhlada::literals_number(first, second, c);
            let part = rimhlada::literals(first, second, c);
            put_front(out, number, c, part.len());
            put_part(out, first, second, part);
        }
        Operation::Step => {
            let r = rimhlada::step(first, second, c, entry_of(h.a)?);
            put_front(out, r.answer.number(), r.counts, 0);
            put_rest(out, first, second, b"");
        }
        Operation::Run => {
            let r = rimhlada::run(first, second, c, h.a as usize, h.b as usize, bytes);
            put_front(out, r.answer.number(), r.counts, r.steps);
            put_rest(out, first, second, bytes);
        }
        Operation::Replay => {
            let r = rimhlada::replay(first, second, c, bytes);
            put_front(out, r.answer.number(), r.counts, r.applied);
            put_rest(out, first, second, b"");
        }
        Operation::Reason => {
            let r = rimhlada::reason(first, second, c, h.a as usize, h.b as usize);
            let mut values = [0u64; 3];
            rimhlada::reason_values(&mut values, r.answer);
            let kind = rimhlada::reason_kind(r.answer);
            put_front(out, r.answer.number(), r.counts, kind);
            put_values(out, first, second, &values);
        }
    }
    Ok(())
}
