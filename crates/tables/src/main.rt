// Runs the functions on work tables and prints what comes of each.
#![tactic(auto)]

ghost use Rattle.std.specs.Prelude.{◌≡◌, length, IfOk, IfErr};
ghost use Rattle.table.specs.Ready.{Ready};
ghost use Rattle.table.specs.Table.{Held};
ghost use Rattle.tables.specs.Going.{StillReady, StillHeld};

use adding::{add_all, begin, push_times, quantify_all};
use showing::{say_counts, say_good, say_literals};
use std::io;
use table::{Counts, Pending, Ranks};

mod adding;
mod showing;

// A formula on its way into a table: the counts so far, and the clause so far.
// Kept: two values with names, of which Going of specs/ speaks; neither is a flag.
#[derive(Clone, Copy)]
pub struct State {
    pub counts: Counts,
    pub pending: Pending,
}

// Adds clauses to a formula `e 1 a 2 e 3 a 4`.
fn build(rt: &impl Print, t: &mut [u16], ranks: &mut Ranks) -> io::Result<Counts>
    requires { length t.old ≡ 11261 }
    ensures ok { IfOk result (λ c. Ready t.new ranks.new c) }
    ensures err { IfErr result (λ _. StillReady t.new ranks.new) }
{
    let mut scratch = [0u16; 1023];
    let prefix = [2u16, 5, 6, 9];
    // (-1 3); an equal one; both phases; (1 -4), where 4 is at the right end; (-2 3); (-2), which becomes empty
    let numbers = [6u16, 3, 0, 3, 6, 3, 0, 2, 3, 0, 2, 9, 0, 5, 6, 0, 5, 0];
    let c = begin(t, ranks);
    let d = quantify_all(t, c, ranks, &prefix);
    add_all(rt, t, d, &mut scratch, ranks, &numbers)
}

// What is said of the table with another number at one place. It is put back.
fn damaged(rt: &impl Print, t: &mut [u16], c: Counts, at: usize, number: u16) -> io::Result<()> {
    if at < t.len() {
        let old = t[at];
        t[at] = number;
        let said = say_good(rt, t, c);
        t[at] = old;
        return said;
    }
    Ok(())
}

// The same record, for the second table, and with a literal more.
fn in_second(c: Counts) -> Counts {
    Counts { second: true, ..c }
}

fn one_literal_more(c: Counts) -> Counts {
    if c.literals < Counts::LITERALS {
        return Counts {
            literals: c.literals + 1,
            ..c
        };
    }
    c
}

// A table damaged: an end, the order of a clause, a literal's number, a universal at the right end.
fn damage_clauses(rt: &impl Print, t: &mut [u16], c: Counts) -> io::Result<()> {
    damaged(rt, t, c, 1023, 1)?;
    damaged(rt, t, c, 3070, 7)?;
    damaged(rt, t, c, 3071, 60000)?;
    damaged(rt, t, c, 3072, 9)
}

// And a clause twice, an unused place, a variable twice in the prefix.
fn damage_more(rt: &impl Print, t: &mut [u16], c: Counts) -> io::Result<()> {
    damaged(rt, t, c, 3073, 3)?;
    damaged(rt, t, c, 11260, 1)?;
    damaged(rt, t, c, 1, 3)
}

// The literals from either table, and the two refusals.
fn literals_of(rt: &impl Print, first: &[u16], second: &[u16], c: Counts) -> io::Result<()> {
    say_literals(rt, first, second, c)?;
    say_literals(rt, first, second, in_second(c))?;
    say_literals(rt, second, first, in_second(c))?;
    if 7 <= second.len() {
        say_literals(rt, first, &second[..7], c)?;
    }
    Ok(())
}

// The clause so many times, and then the last one.
fn fill(
    rt: &impl Print,
    t: &mut [u16],
    clause: &[u16],
    times: usize,
    last: &[u16],
) -> io::Result<Counts>
    requires { length t.old ≡ 11261 }
    ensures ok { IfOk result (λ c. Held t.new c) }
    ensures err { IfErr result (λ _. StillHeld t.new) }
{
    let mut ranks = [0u16; 1024];
    let a = begin(t, &mut ranks);
    let b = push_times(rt, t, a, clause, times)?;
    push_times(rt, t, b, last, 1)
}

// Tables that get full, by clauses and by literals. What is refused changes nothing.
fn fill_up(
    rt: &impl Print,
    first: &mut [u16],
    second: &mut [u16],
    clause: &[u16],
    times: usize,
    last: &[u16],
) -> io::Result<()>
    requires { (length first.old ≡ 11261) × (length second.old ≡ 11261) }
{
    say_counts(rt, fill(rt, first, clause, times, last)?)?;
    let c = fill(rt, second, clause, times, last)?;
    say_counts(rt, push_times(rt, second, c, last, 1)?)?;
    if table::equal(first, second) {
        println!(rt; "unchanged")?;
    }
    Ok(())
}

fn main(rt: HostRuntime) -> io::Result<()> {
    let mut first = [0u16; 11261];
    let mut second = [0u16; 11261];
    let mut ranks = [0u16; 1024];
    let wide = [2u16; 1023];
    let seven = [2u16; 7];
    let one = [2u16; 1];
    let other = [4u16; 1];
    let c = build(&rt, &mut first, &mut ranks)?;
    say_good(&rt, &first, c)?;
    damage_clauses(&rt, &mut first, c)?;
    damage_more(&rt, &mut first, c)?;
    say_good(&rt, &first, one_literal_more(c))?;
    literals_of(&rt, &first, &second, c)?;
    fill_up(&rt, &mut first, &mut second, &one, 2046, &other)?;
    fill_up(&rt, &mut first, &mut second, &wide, 8, &seven)
}
