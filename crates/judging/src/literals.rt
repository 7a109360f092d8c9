// The literals of the formula in whichever of two lent tables the record names.
ghost use Rattle.std.specs.Prelude.{◌≡◌};
ghost use Rattle.meaning.specs.Formula.{Formula};
ghost use Rattle.table.specs.Table.{all_literals, Holds, Held};
ghost use Rattle.table.specs.Lent.{named};
ghost use Rattle.judging.specs.Check.{judged, asked, literals_part};

use crate::Unfit;
use crate::check::well_formed;
use table::Counts;

// The table that the record names.
pub fn named<'a>(first: &'a [u16], second: &'a [u16], c: Counts) -> &'a [u16]
    ensures { result.now ≡ named first.now second.now c }
{
    if c.second { second } else { first }
}

// What is said of one table. A function of its own in the machine code too, so that the calls from C take less of the stack.
#[inline(never)]
fn judge(t: &[u16], c: Counts) -> Result<(), Unfit>
    ensures { result ≡ judged t.now c }
{
    if well_formed(t, c) {
        Ok(())
    } else {
        Err(Unfit::Malformed)
    }
}

// What is said of a call for the literals: lengths first, then the table that the record names.
pub fn literals_answer(first: &[u16], second: &[u16], c: Counts) -> Result<(), Unfit>
    ensures { result ≡ asked first.now second.now c }
{
    if first.len() != Counts::TABLE || second.len() != Counts::TABLE {
        return Err(Unfit::WrongLength);
    }
    judge(named(first, second, c), c)
}

// The used part of the literals of a table that holds a formula.
fn used_part(t: &[u16], c: Counts) -> &[u16]
    requires { Held t.now c }
    ensures { (φ : Formula) → Holds φ t.now c → result.now ≡ all_literals φ.clauses }
{
    let end = Counts::LITERALS_AT + c.literals;
    &t[Counts::LITERALS_AT..end]
}

// The literals, as a part of one of the two tables; an empty part of the first where the call is refused.
pub fn literals_part<'a>(first: &'a [u16], second: &'a [u16], c: Counts) -> &'a [u16]
    ensures { result.now ≡ literals_part first.now second.now c }
{
    match literals_answer(first, second, c) {
        Ok(()) => used_part(named(first, second, c), c),
        Err(_) => &first[..0],
    }
}
