// "Take the first kind in the order 1 to 7 with a candidate": one function a kind, which passes on to the next.
ghost use Rattle.std.specs.Prelude.{◌≡◌, ℕ, ◌≤◌, ◌<◌, true, false, Bool, ◌||◌, length};
ghost use Rattle.meaning.specs.Formula.{Formula};
ghost use Rattle.meaning.specs.Game.{empty_clause};
ghost use Rattle.meaning.specs.WellFormed.{well_formed};
ghost use Rattle.rules.specs.Step.{result_of};
ghost use Rattle.rules.specs.Entry.{Kind, unit, pure, subsume, strengthen, equality, resolve, expand, code, entry};
ghost use Rattle.rules.specs.Run as rules;
ghost use Rattle.table.specs.Table.{table_of, empty_formula, Holds};
ghost use Rattle.index.specs.AtHand.{InHand};
ghost use Rattle.index.specs.Build.{TallyIn};
ghost use Rattle.search.specs.Searched.{SearchedTo};
ghost use Rattle.growth.specs.Weights.{NoneSubsumed};
ghost use Rattle.choice.specs.Chosen.{next_as, any_of_kind, lack_of, stuck_as, next_from, ChosenAs, AllSearched, HeldSearched, Unsettled, Busy, Unsubsumed, Apart, Ranks, Ranked};

use crate::lightest::{best_expand, best_resolve};
use crate::searched::searched_without;
use crate::{Chosen, End, Lack, Next};
use index::{AtHand, build_index, clauses_of, put_tally};
use permits::entry_of;
use search::{find_equality, find_pure, find_strengthen, find_subsume, find_unit};
use table::{Counts, Ranks, is_present, rank_prefix, zero};

// No step counts: OUT OF ROOM exactly if one of kind 6 or one of kind 7 failed only for room.
fn stuck(resolving: Lack, expanding: Lack) -> Next
    ensures { (room too : Bool) → resolving ≡ lack_of room → expanding ≡ lack_of too → result ≡ stuck_as (room || too) }
{
    match (resolving, expanding) {
        (Lack::Steps, Lack::Steps) => Next::Over(End::Finished),
        _ => Next::Over(End::OutOfRoom),
    }
}

fn choose_expand(t: &[u16], c: Counts, ranks: &Ranks, allowance: usize, resolving: Lack) -> Chosen
    requires { Ranked t.now c ranks.now × (allowance ≤ 1000) }
    ensures { (φ : Formula) → Ranks φ t.now c ranks.now → resolving ≡ lack_of (any_of_kind allowance φ resolve) → ChosenAs φ (next_from allowance φ expand) result }
{
    match best_expand(t, c, ranks, allowance) {
        Ok(a) => Chosen {
            next: Next::Step(entry_of(7, a, 0)),
            searched: 0,
        },
        Err(expanding) => Chosen {
            next: stuck(resolving, expanding),
            searched: 0,
        },
    }
}

// No clause with a stays, and the resolvents are put behind the clauses that do.
fn choose_resolve(at: &AtHand, allowance: usize) -> Chosen
    requires { Apart at.now × (allowance ≤ 1000) }
    ensures { (φ : Formula) → InHand φ at.now → NoneSubsumed φ → AllSearched φ → ChosenAs φ (next_from allowance φ resolve) result }
{
    match best_resolve(at) {
        Ok(a) => Chosen {
            next: Next::Step(entry_of(6, a, 0)),
            searched: at
                .counts
                .clauses
                .saturating_sub(clauses_of(at.index, a as u16).len()),
        },
        Err(resolving) => choose_expand(at.table, at.counts, at.ranks, allowance, resolving),
    }
}

fn choose_equality(at: &AtHand, allowance: usize) -> Chosen
    requires { Apart at.now × (allowance ≤ 1000) }
    ensures { (φ : Formula) → InHand φ at.now → NoneSubsumed φ → AllSearched φ → ChosenAs φ (next_from allowance φ equality) result }
{
    match find_equality(at.table, at.counts, at.index) {
        Some((a, b)) => Chosen {
            next: Next::Step(entry_of(5, a, b)),
            searched: 0,
        },
        None => choose_resolve(at, allowance),
    }
}

// The clauses before b stay as they were.
fn choose_strengthen(at: &AtHand, allowance: usize, searched: usize) -> Chosen
    requires { Unsubsumed at.now searched × (allowance ≤ 1000) }
    ensures { (φ : Formula) → InHand φ at.now → NoneSubsumed φ → SearchedTo φ searched → ChosenAs φ (next_from allowance φ strengthen) result }
{
    match find_strengthen(at, searched) {
        Some((a, b)) => Chosen {
            next: Next::Step(entry_of(4, a, b)),
            searched: searched.min(b),
        },
        None => choose_equality(at, allowance),
    }
}

// One clause goes: at most one of the first.
fn choose_subsume(at: &AtHand, allowance: usize, searched: usize) -> Chosen
    requires { Busy at.now searched × (allowance ≤ 1000) }
    ensures { (φ : Formula) → InHand φ at.now → empty_clause φ.clauses ≡ false → SearchedTo φ searched → ChosenAs φ (next_from allowance φ subsume) result }
{
    match find_subsume(at.table, at.counts, at.index, searched) {
        Some((a, b)) => Chosen {
            next: Next::Step(entry_of(3, a, b)),
            searched: searched.saturating_sub(1),
        },
        None => choose_strengthen(at, allowance, searched),
    }
}

// From kind 3 on: the index goes into the spare table, where the tally was.
fn choose_indexed(
    t: &[u16],
    c: Counts,
    spare: &mut [u16],
    allowance: usize,
    searched: usize,
) -> Chosen
    requires { Unsettled t.now c searched × (length spare.old ≡ 11261) × (allowance ≤ 1000) × TallyIn t.now c spare.old }
    ensures { (φ : Formula) → Holds φ t.now c → well_formed φ ≡ true → empty_clause φ.clauses ≡ false → SearchedTo φ searched → ChosenAs φ (next_from allowance φ subsume) result }
{
    let mut ranks = [0u16; 1024];
    rank_prefix(&t[..c.variables], &mut ranks);
    build_index(t, c, spare);
    let at = AtHand {
        table: t,
        counts: c,
        ranks: &ranks,
        index: spare,
    };
    choose_subsume(&at, allowance, searched)
}

// Kind 2 needs no more than how often each literal stands in the clauses, so the index waits.
fn choose_pure(t: &[u16], c: Counts, spare: &mut [u16], allowance: usize, searched: usize) -> Chosen
    requires { Unsettled t.now c searched × (length spare.old ≡ 11261) × (allowance ≤ 1000) }
    ensures { (φ : Formula) → Holds φ t.now c → well_formed φ ≡ true → empty_clause φ.clauses ≡ false → SearchedTo φ searched → ChosenAs φ (next_from allowance φ pure) result }
{
    put_tally(t, c, spare);
    match find_pure(t, c, spare) {
        Some((a, b)) => Chosen {
            next: Next::Step(entry_of(2, a, b)),
            searched: searched_without(t, c, spare, a, searched),
        },
        None => choose_indexed(t, c, spare, allowance, searched),
    }
}

fn choose_unit(t: &[u16], c: Counts, spare: &mut [u16], allowance: usize, searched: usize) -> Chosen
    requires { Unsettled t.now c searched × (length spare.old ≡ 11261) × (allowance ≤ 1000) }
    ensures { (φ : Formula) → Holds φ t.now c → well_formed φ ≡ true → empty_clause φ.clauses ≡ false → SearchedTo φ searched → ChosenAs φ (next_from allowance φ unit) result }
{
    match find_unit(t, c) {
        Some((a, b)) => Chosen {
            next: Next::Step(entry_of(1, a, b)),
            searched: 0,
        },
        None => choose_pure(t, c, spare, allowance, searched),
    }
}

// "An empty clause, FALSE; no clause, TRUE; else" by the kinds.
fn decide(t: &[u16], c: Counts, spare: &mut [u16], allowance: usize, searched: usize) -> Chosen
    requires { HeldSearched t.now c searched × (length spare.old ≡ 11261) × (allowance ≤ 1000) }
    ensures { (φ : Formula) → Holds φ t.now c → well_formed φ ≡ true → SearchedTo φ searched → ChosenAs φ (rules.next allowance φ) result }
{
    if is_present(t, c, &t[..0]) {
        return Chosen {
            next: Next::Over(End::False),
            searched: 0,
        };
    }
    if c.clauses == 0 {
        return Chosen {
            next: Next::Over(End::True),
            searched: 0,
        };
    }
    choose_unit(t, c, spare, allowance, searched)
}

// What the run does next, where so many of the first clauses were searched (0: nothing is known). The spare table ends zero, whatever it held.
pub fn choose(t: &[u16], c: Counts, spare: &mut [u16], allowance: usize, searched: usize) -> Chosen
    requires { HeldSearched t.now c searched × (length spare.old ≡ 11261) × (allowance ≤ 1000) }
    ensures next_value { (φ : Formula) → Holds φ t.now c → well_formed φ ≡ true → result.next ≡ next_as (rules.next allowance φ) }
    ensures searched_to { (φ : Formula) (k : Kind) (a b : ℕ) → Holds φ t.now c → well_formed φ ≡ true → rules.next allowance φ ≡ rules.step k a b → SearchedTo (result_of φ k a b) result.searched }
    ensures spare_after { spare.new ≡ table_of empty_formula }
{
    let r = decide(t, c, spare, allowance, searched);
    zero(spare);
    r
}
