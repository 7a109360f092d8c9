// Why a variable is left (request 2), over two lent tables.
ghost use Rattle.std.specs.Prelude.{◌≡◌, ◌≤◌, true, length};
ghost use Rattle.meaning.specs.Formula.{Formula};
ghost use Rattle.meaning.specs.WellFormed.{well_formed};
ghost use Rattle.table.specs.Table.{table_of, empty_formula, Holds};
ghost use Rattle.index.specs.Build.{HeldWell};
ghost use Rattle.apply.specs.Applied.{Lends, Lent, Stands};
ghost use Rattle.explaining.specs.Explaining.{reason_number, why_back, answer_on, Explains};

use judging::{Unfit, literals_answer};
use permits::has_variable;
use reasoning::{Why, explain};
use table::{Counts, zero};

// What comes of a call. The reasons: the formula has that verdict; the run's next entry; the entry of the step on the variable, which
// counts; the lowest clause with a variable too far right, its leftmost such variable, and the first universal right of the asked one; the
// weight, and the weight after resolving; the existential and the universal after it that block a universal; the weight, and the weight
// after expanding; the limit that the result would pass first. Then the refusals.
// Kept: no Result, since an answer and a record come back with every call, a refusal too, and the statements speak of both.
#[derive(Clone, Copy)]
pub enum ReasonAnswer {
    True,
    False,
    NextEntry(u32),
    OwnEntry(u32),
    TooFarRight(usize, usize, usize),
    NotLighter(usize, usize),
    Between(usize, usize),
    TooHeavy(usize, usize),
    OverVariables,
    OverClauses,
    OverLiterals,
    Length,
    Malformed,
    Allowance,
    NotPermitted,
}

impl ReasonAnswer {
    // Document 01's number of a verdict or a refusal; 0 for the other reasons.
    // Kept: C takes numbers, and the demands speak of them.
    #[tactic(auto, unfolding(crate::specs::Explaining::reason_number))]
    pub fn number(self) -> u8
        ensures { result ≡ reason_number self }
    {
        match self {
            ReasonAnswer::True => 20,
            ReasonAnswer::False => 21,
            ReasonAnswer::Length => 1,
            ReasonAnswer::Malformed => 2,
            ReasonAnswer::Allowance => 13,
            ReasonAnswer::NotPermitted => 10,
            ReasonAnswer::NextEntry(_)
            | ReasonAnswer::OwnEntry(_)
            | ReasonAnswer::TooFarRight(_, _, _)
            | ReasonAnswer::NotLighter(_, _)
            | ReasonAnswer::Between(_, _)
            | ReasonAnswer::TooHeavy(_, _)
            | ReasonAnswer::OverVariables
            | ReasonAnswer::OverClauses
            | ReasonAnswer::OverLiterals => 0,
        }
    }
}

// The answer, and the record of what the tables hold after it: always as it was lent.
#[derive(Clone, Copy)]
pub struct Reasoned {
    pub answer: ReasonAnswer,
    pub counts: Counts,
}

impl From<Unfit> for ReasonAnswer {
    ghost use Rattle.std.specs.Prelude.{◌≡◌};
    ghost use Rattle.explaining.specs.Explaining.{unfit_answer};

    ghost from_gives = { λ unfit answer. answer ≡ unfit_answer unfit };

    fn from(unfit: Unfit) -> ReasonAnswer {
        match unfit {
            Unfit::WrongLength => ReasonAnswer::Length,
            Unfit::Malformed => ReasonAnswer::Malformed,
        }
    }
}

// What is given back.
fn give_back(answer: ReasonAnswer, c: Counts) -> Reasoned
    ensures { result ≡ record { answer = answer; counts = c } }
{
    Reasoned { answer, counts: c }
}

impl From<Why> for ReasonAnswer {
    ghost use Rattle.explaining.specs.Explaining.{why_back};

    ghost from_gives = { λ why answer. answer ≡ why_back why };

    #[tactic(auto, unfolding(crate::specs::Explaining::why_back))]
    fn from(why: Why) -> Self {
        match why {
            Why::True => ReasonAnswer::True,
            Why::False => ReasonAnswer::False,
            Why::NextEntry(e) => ReasonAnswer::NextEntry(e),
            Why::OwnEntry(e) => ReasonAnswer::OwnEntry(e),
            Why::TooFarRight(i, y, u) => ReasonAnswer::TooFarRight(i, y, u),
            Why::NotLighter(m, n) => ReasonAnswer::NotLighter(m, n),
            Why::Between(e, u) => ReasonAnswer::Between(e, u),
            Why::TooHeavy(m, n) => ReasonAnswer::TooHeavy(m, n),
            Why::OverVariables => ReasonAnswer::OverVariables,
            Why::OverClauses => ReasonAnswer::OverClauses,
            Why::OverLiterals => ReasonAnswer::OverLiterals,
        }
    }
}

// The answer for a variable, from the table that holds the formula. The spare table ends zero, whatever it held. Written out where it is
// called, so that the call from C takes less of the stack.
#[inline(always)]
fn reason_at(
    t: &[u16],
    c: Counts,
    spare: &mut [u16],
    variable: usize,
    allowance: usize,
) -> ReasonAnswer
    requires { HeldWell t.now c × (length spare.old ≡ 11261) × (allowance ≤ 1000) }
    ensures value { (φ : Formula) → Holds φ t.now c → well_formed φ ≡ true → result ≡ answer_on φ variable allowance }
    ensures spare_after { spare.new ≡ table_of empty_formula }
{
    if has_variable(&t[..c.variables], variable) {
        return explain(t, c, spare, variable, allowance).into();
    }
    zero(spare);
    ReasonAnswer::NotPermitted
}

// The same, by the table that the record names.
fn reason_between(
    first: &mut [u16],
    second: &mut [u16],
    c: Counts,
    variable: usize,
    allowance: usize,
) -> ReasonAnswer
    requires { Lent first.old second.old c × (allowance ≤ 1000) }
    ensures { (φ : Formula) → Lends φ first.old second.old c → (result ≡ answer_on φ variable allowance) × Stands φ c.second first.new second.new }
{
    if c.second {
        return reason_at(second, c, first, variable, allowance);
    }
    reason_at(first, c, second, variable, allowance)
}

// Why the variable is left in the formula in the table that the record names. Any tables, any record, any numbers.
pub fn reason(
    first: &mut [u16],
    second: &mut [u16],
    c: Counts,
    variable: usize,
    allowance: usize,
) -> Reasoned
    ensures { Explains first.old second.old c variable allowance result first.new second.new }
{
    match literals_answer(first, second, c) {
        Ok(()) => {
            if 1000 < allowance {
                return give_back(ReasonAnswer::Allowance, c);
            }
            let answer = reason_between(first, second, c, variable, allowance);
            give_back(answer, c)
        }
        Err(unfit) => give_back(unfit.into(), c),
    }
}
