// Building tables: variables, raw clauses number by number, and one clause many times.
ghost use Rattle.std.specs.Prelude.{◌≡◌, length, IfOk, IfErr};
ghost use Rattle.table.specs.Ready.{Ready};
ghost use Rattle.table.specs.Table.{Held};
ghost use Rattle.table.specs.Pending.{Pended};
ghost use Rattle.tables.specs.Going.{Going, StillReady, StillHeld};

use crate::State;
use crate::showing::say_counts;
use std::io;
use table::{Counts, Pending, Ranks, Scratch};

// An empty table and its ranks, whatever they held.
pub fn begin(t: &mut [u16], ranks: &mut Ranks) -> Counts
    requires { length t.old ≡ 11261 }
    ensures { Ready t.new ranks.new result }
{
    table::zero(t);
    table::rank_prefix(&t[..0], ranks);
    Counts::empty()
}

// One entry more in the prefix, unless its variable is there.
fn quantify(t: &mut [u16], c: Counts, ranks: &mut Ranks, entry: u16) -> Counts
    requires { Ready t.old ranks.old c }
    ensures { Ready t.new ranks.new result }
{
    if table::is_new(ranks, entry) {
        match table::push_variable(t, c, entry) {
            Some(d) => {
                table::add_rank(ranks, c.variables, entry);
                return d;
            }
            None => return c,
        }
    }
    c
}

pub fn quantify_all(t: &mut [u16], c: Counts, ranks: &mut Ranks, prefix: &[u16]) -> Counts
    requires { Ready t.old ranks.old c }
    ensures { Ready t.new ranks.new result }
{
    let mut counts = c;
    for entry in prefix {
        counts = quantify(t, counts, ranks, *entry);
    }
    counts
}

// The raw clause is complete.
fn close(
    rt: &impl Print,
    t: &mut [u16],
    c: Counts,
    scratch: &mut Scratch,
    p: Pending,
    ranks: &Ranks,
) -> io::Result<Counts>
    requires ready { Ready t.old ranks.now c }
    requires pended { Pended scratch.old p }
    ensures ok { IfOk result (λ d. Ready t.new ranks.now d) }
    ensures err { IfErr result (λ _. StillReady t.new ranks.now) }
{
    match table::close_clause(t, c, scratch, p, ranks) {
        Some(d) => {
            say_counts(rt, d)?;
            Ok(d)
        }
        None => {
            println!(rt; "full")?;
            Ok(c)
        }
    }
}

// One number of a list of raw clauses: a literal, or 0 at the end of each.
fn take_number(
    rt: &impl Print,
    t: &mut [u16],
    s: State,
    scratch: &mut Scratch,
    ranks: &Ranks,
    x: u16,
) -> io::Result<State>
    requires { Going t.old ranks.now scratch.old s }
    ensures ok { IfOk result (λ r. Going t.new ranks.now scratch.new r) }
    ensures err { IfErr result (λ _. StillReady t.new ranks.now) }
{
    if x < 2 {
        let counts = close(rt, t, s.counts, scratch, s.pending, ranks)?;
        return Ok(State {
            counts,
            pending: Some(0),
        });
    }
    if 2047 < x {
        return Ok(s);
    }
    let pending = table::put_literal(scratch, s.pending, x);
    Ok(State { pending, ..s })
}

pub fn add_all(
    rt: &impl Print,
    t: &mut [u16],
    c: Counts,
    scratch: &mut Scratch,
    ranks: &Ranks,
    numbers: &[u16],
) -> io::Result<Counts>
    requires { Ready t.old ranks.now c }
    ensures ok { IfOk result (λ d. Ready t.new ranks.now d) }
    ensures err { IfErr result (λ _. StillReady t.new ranks.now) }
{
    let mut s = State {
        counts: c,
        pending: Some(0),
    };
    for x in numbers {
        s = take_number(rt, t, s, scratch, ranks, *x)?;
    }
    Ok(s.counts)
}

// The clause so many times, with no look for equal ones.
pub fn push_times(
    rt: &impl Print,
    t: &mut [u16],
    c: Counts,
    clause: &[u16],
    times: usize,
) -> io::Result<Counts>
    requires { Held t.old c }
    ensures ok { IfOk result (λ d. Held t.new d) }
    ensures err { IfErr result (λ _. StillHeld t.new) }
{
    let mut counts = c;
    for _ in 0..times {
        match table::push_clause(t, counts, clause) {
            Some(d) => counts = d,
            None => {
                println!(rt; "full")?;
                return Ok(counts);
            }
        }
    }
    Ok(counts)
}
