// Adding clauses to a table with marks beside it: a clause is compared only with those that have the same slot, so that adding
// takes no longer the more clauses there are. The marks stand in a lent slice as long as a work table.
#![tactic(auto)]

ghost use Rattle.std.specs.Prelude.{◌≡◌, ℕ, ◌<◌, true, List, [], ◌∷◌, ◌++◌, length};
ghost use Rattle.meaning.specs.Lists.{any_of, same};
ghost use Rattle.meaning.specs.Formula.{Formula};
ghost use Rattle.meaning.specs.WellFormed.{good_prefix};
ghost use Rattle.table.specs.Table.{with_clause, with_new_clause, with_raw, Holds};
ghost use Rattle.table.specs.Ranks.{ranks_of};
ghost use Rattle.table.specs.Pending.{Pends, Pended};
ghost use Rattle.marks.specs.Marks.{slots, slot_of, Marks, Marked, Went};

use table::{Counts, Pending, Ranks, Scratch, clause_at, equal, push_clause, tidy_in};

// How many heads there are. The links come after them.
const SLOTS: usize = 9209;

// The slot of a clause.
fn slot_of(clause: &[u16]) -> usize
    ensures { result ≡ slot_of clause.now }
{
    let mut h: usize = 0;
    for literal in clause {
        h = (h * 5689 + *literal as usize) % SLOTS;
    }
    h
}

// Whether a clause equal to this one, which has this slot, is in the table: from the slot's head on, link by link.
fn is_marked(t: &[u16], c: Counts, clause: &[u16], slot: usize, marks: &[u16]) -> bool
    requires marked { Marked t.now c marks.now }
    requires slot_value { slot ≡ slot_of clause.now }
    ensures { (φ : Formula) → Holds φ t.now c → Marks φ.clauses marks.now → result ≡ any_of (same clause.now) φ.clauses }
{
    let mut k = marks[slot] as usize;
    // Kept: a walk from link to link, which no range counts.
    while 0 < k {
        let i = k - 1;
        if equal(clause, clause_at(t, c, i)) {
            return true;
        }
        let at = SLOTS + i;
        k = marks[at] as usize;
    }
    false
}

// The marks with one clause more: it is clause n, and has this slot.
fn add_mark(marks: &mut [u16], slot: usize, n: usize)
    requires { (length marks.old ≡ 11261) × (slot < slots) × (n < 2047) }
    ensures { (cs : List (List ℕ)) (x : List ℕ) → Marks cs marks.old → n ≡ length cs → slot ≡ slot_of x → Marks (cs ++ (x ∷ [])) marks.new }
{
    let at = SLOTS + n;
    marks[at] = marks[slot];
    marks[slot] = (n + 1) as u16;
}

// The clause after the others, where the table has room for it, with its marks. It has this slot.
fn push_marked(
    t: &mut [u16],
    c: Counts,
    clause: &[u16],
    slot: usize,
    marks: &mut [u16],
) -> Option<Counts>
    requires marked { Marked t.old c marks.old }
    requires slot_value { slot ≡ slot_of clause.now }
    ensures { (φ : Formula) → Holds φ t.old c → Marks φ.clauses marks.old → Went φ (with_clause φ clause.now) c.second result t.new marks.new }
{
    let d = push_clause(t, c, clause)?;
    add_mark(marks, slot, c.clauses);
    Some(d)
}

// The clause after the others, unless an equal one is there.
pub fn add_marked(t: &mut [u16], c: Counts, clause: &[u16], marks: &mut [u16]) -> Option<Counts>
    requires { Marked t.old c marks.old }
    ensures { (φ : Formula) → Holds φ t.old c → Marks φ.clauses marks.old → Went φ (with_new_clause φ clause.now) c.second result t.new marks.new }
{
    let slot = slot_of(clause);
    if is_marked(t, c, clause, slot, marks) {
        return Some(c);
    }
    push_marked(t, c, clause, slot, marks)
}

// The raw clause is complete: it is tidied by the ranks of the prefix, and added unless an equal one is there.
pub fn close_marked(
    t: &mut [u16],
    c: Counts,
    scratch: &mut Scratch,
    p: Pending,
    ranks: &Ranks,
    marks: &mut [u16],
) -> Option<Counts>
    requires marked { Marked t.old c marks.old }
    requires pended { Pended scratch.old p }
    ensures { (φ : Formula) (raw : List ℕ) → Holds φ t.old c → good_prefix φ.prefix ≡ true → ranks.now ≡ ranks_of φ.prefix → Pends raw scratch.old p → Marks φ.clauses marks.old → Went φ (with_raw φ raw) c.second result t.new marks.new }
{
    // Kept: no closure, since adding lends the table, and the marks beside it.
    match tidy_in(scratch, p, ranks) {
        Some(m) => add_marked(t, c, &scratch[..m], marks),
        None => Some(c),
    }
}
