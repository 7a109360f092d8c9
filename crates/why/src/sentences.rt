// A plain sentence for each reason. An `e` variable is chosen, an `a` variable comes in, in the order of the quantifier lines.
use crate::clauses::clause_at;
use crate::entries::Entry;
use crate::prefix::is_universal;
use rimhlada::{Counts, ReasonAnswer};
use std::fmt;

// What the sentences speak of.
#[derive(Drop)]
pub struct Left(pub Counts);

impl fmt::Display for Left {
    fn fmt<W: fmt::Write>(&self, f: &mut fmt::Formatter<W>) -> fmt::Result {
        let c = self.0;
        let m = c.variables;
        let n = c.clauses;
        let k = c.literals;
        write!(
            f,
            "Left: variables {m}, clauses {n} (counted from 0), literals {k}; the weight is the sum of the three."
        )
    }
}

// Why a variable is left. The tables come from the reader and a run, the allowance is in range and the caller has sent off a variable that is
// not there, so no refusal is seen.
#[derive(Drop)]
pub struct Reason<'a> {
    pub first: &'a [u16; 11261],
    pub second: &'a [u16; 11261],
    pub counts: Counts,
    pub variable: usize,
    pub allowance: usize,
    pub answer: ReasonAnswer,
}

impl Reason<'_> {
    // The variable y of clause i that is too far right, and u, the first universal right of the variable.
    fn write_tie<W: fmt::Write>(
        &self,
        f: &mut fmt::Formatter<W>,
        i: usize,
        y: usize,
        u: usize,
    ) -> fmt::Result {
        let v = self.variable;
        let clause = clause_at(self.first, self.second, self.counts, i);
        write!(f, "clause {i} ({clause}) ties it to ")?;
        if y == u {
            write!(
                f,
                "the `a` variable {u}, which comes in only after {v} is chosen."
            )
        } else if is_universal(self.first, self.second, self.counts, y) {
            write!(
                f,
                "the `a` variable {y}, which comes in, like {u} before it, only after {v} is chosen."
            )
        } else {
            write!(
                f,
                "{y}, which is chosen only after the `a` variable {u} has come in."
            )
        }
    }
}

impl fmt::Display for Reason<'_> {
    fn fmt<W: fmt::Write>(&self, f: &mut fmt::Formatter<W>) -> fmt::Result {
        let v = self.variable;
        write!(f, "Variable {v} stays: ")?;
        match self.answer {
            ReasonAnswer::True => f.write_str(
                "the formula is true whatever its value, since no clause is left.",
            ),
            ReasonAnswer::False => f.write_str(
                "the formula is false whatever its value, since a clause without literals is left.",
            ),
            // A variable that a step would remove is still there: only a run that was stopped leaves one.
            ReasonAnswer::NextEntry(e) => {
                let entry = Entry(e);
                write!(
                    f,
                    "the run stopped at its limit of steps; the next one is {entry}."
                )
            }
            ReasonAnswer::OwnEntry(e) => {
                let entry = Entry(e);
                write!(
                    f,
                    "the run stopped at its limit of steps; nothing else keeps it, and the step that takes it out is {entry}."
                )
            }
            ReasonAnswer::TooFarRight(i, y, u) => self.write_tie(f, i, y, u),
            ReasonAnswer::NotLighter(m, n) => write!(
                f,
                "taking it out, its clauses joined in pairs, would not make the formula lighter: weight {m} now, {n} then."
            ),
            ReasonAnswer::Between(e, u) => write!(
                f,
                "after it {e} is chosen, and after that the `a` variable {u} comes in, so its two values can't be written out yet."
            ),
            ReasonAnswer::TooHeavy(m, n) => {
                let allowance = self.allowance;
                write!(
                    f,
                    "writing out its two values would make the formula too heavy: weight {m} now, {n} then, and a rise of at most {allowance} is allowed."
                )
            }
            ReasonAnswer::OverVariables => {
                f.write_str("writing out its two values would need a variable number over 1023.")
            }
            ReasonAnswer::OverClauses => {
                f.write_str("taking it out would leave more than 2047 clauses.")
            }
            ReasonAnswer::OverLiterals => {
                f.write_str("taking it out would leave more than 8191 literals.")
            }
            ReasonAnswer::Length => f.write_str("refused, 1."),
            ReasonAnswer::Malformed => f.write_str("refused, 2."),
            ReasonAnswer::Allowance => f.write_str("refused, 13."),
            ReasonAnswer::NotPermitted => f.write_str("refused, 10."),
        }
    }
}
