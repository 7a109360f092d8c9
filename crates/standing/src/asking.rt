// The literals of the formula in whichever of two lent tables the record names. No table is touched.
ghost use Rattle.std.specs.Prelude.{◌≡◌};
ghost use Rattle.judging.specs.Check.{asked, asked_number, literals_part};

use judging::{Unfit, literals_answer, literals_part};
use table::Counts;

// The literals, as a part of one of the two tables; an empty part of the first where the call is refused. Any tables, any record.
pub fn literals<'a>(first: &'a [u16], second: &'a [u16], c: Counts) -> &'a [u16]
    ensures { result.now ≡ literals_part first.now second.now c }
{
    literals_part(first, second, c)
}

// Document 01's number of that call; 0 where nothing is refused.
// Kept: C takes numbers, and the demands speak of them.
pub fn literals_number(first: &[u16], second: &[u16], c: Counts) -> u8
    ensures { result ≡ asked_number (asked first.now second.now c) }
{
    match literals_answer(first, second, c) {
        Ok(()) => 0,
        Err(Unfit::WrongLength) => 1,
        Err(Unfit::Malformed) => 2,
    }
}
