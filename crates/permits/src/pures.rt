// Step 2, pure.
ghost use Rattle.std.specs.Prelude.{◌≡◌, true, ◌&&◌, ◌<◌};
ghost use Rattle.meaning.specs.Formula.{Formula, plain, negated};
ghost use Rattle.meaning.specs.WellFormed.{well_formed};
ghost use Rattle.rules.specs.Simplify as rules;
ghost use Rattle.table.specs.Table.{Holds, Held};
ghost use Rattle.table.specs.Ranks.{ranks_of};
ghost use Rattle.permits.specs.Choices.{pure_true};

use crate::occurrences::occurs;
use crate::ranks::{in_prefix, is_universal};
use table::{Counts, Ranks, flip};

// Whether both literals of a variable occur.
fn both_occur(t: &[u16], c: Counts, a: usize) -> bool
    requires held { Held t.now c }
    requires a_bound { a < 1024 }
    ensures { (φ : Formula) → Holds φ t.now c → result ≡ (rules.occurs (plain a) φ.clauses && rules.occurs (negated a) φ.clauses) }
{
    let literal = 2 * a as u16;
    occurs(t, c, literal) && occurs(t, c, literal + 1)
}

// Whether a is a variable of the prefix that occurs in at most one phase.
pub fn pure_permitted(t: &[u16], c: Counts, ranks: &Ranks, a: usize) -> bool
    requires held { Held t.now c }
    ensures { (φ : Formula) → Holds φ t.now c → well_formed φ ≡ true → ranks.now ≡ ranks_of φ.prefix → result ≡ rules.pure_permitted φ a }
{
    a <= Counts::VARIABLES && in_prefix(ranks, a) && !both_occur(t, c, a)
}

// The literal of a that occurs; if none does, the negated one.
fn lone_literal(t: &[u16], c: Counts, a: usize) -> u16
    requires held { Held t.now c }
    requires a_bound { a < 1024 }
    ensures { (φ : Formula) → Holds φ t.now c → result ≡ rules.pure_lit φ.clauses a }
{
    let literal = 2 * a as u16;
    if occurs(t, c, literal) {
        return literal;
    }
    literal + 1
}

// The literal that becomes true: the opposite of the one that occurs, for a universal.
pub fn pure_literal(t: &[u16], c: Counts, ranks: &Ranks, a: usize) -> u16
    requires held { Held t.now c }
    ensures { (φ : Formula) → Holds φ t.now c → well_formed φ ≡ true → ranks.now ≡ ranks_of φ.prefix → rules.pure_permitted φ a ≡ true → result ≡ pure_true φ a }
{
    // Kept: a number and no Option, since the definition pure_true gives a literal, and a caller asks where the step is permitted.
    if Counts::VARIABLES < a {
        return 0;
    }
    let literal = lone_literal(t, c, a);
    if is_universal(ranks, a) {
        return flip(literal);
    }
    literal
}
