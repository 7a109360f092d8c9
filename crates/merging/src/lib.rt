// Two clauses merged into one ascending list in a lent scratch, each without one literal.
#![tactic(auto)]

ghost use Rattle.std.specs.Prelude.{◌≡◌, ◌+◌, ◌<◌, true, length, drop, MatchOption};
ghost use Rattle.meaning.specs.Tidy.{both_phases};
ghost use Rattle.table.specs.Pending.{Pends};
ghost use Rattle.merging.specs.Merging.{head_of, joined, Ordered, Merges};

use table::{Pending, Scratch};

// Above all literals.
// Kept: a number and no Option, so that the inner loop compares numbers alone.
const END: u16 = 4095;

// How far it has come: in the first clause, in the second, and in the scratch.
#[derive(Clone, Copy)]
pub struct Merging {
    pub first: usize,
    pub second: usize,
    pub size: usize,
}

// The literal at i; at the end a number above all literals.
fn head_at(clause: &[u16], i: usize) -> u16
    ensures { result ≡ head_of (drop i clause.now) }
{
    if i < clause.len() { clause[i] } else { END }
}

// One literal more, the lower of the two next ones: unless it is left out, it goes to the end of the scratch. None where both phases of a
// variable meet.
fn merge_next(scratch: &mut Scratch, x: &[u16], y: &[u16], out: u16, m: Merging) -> Option<Merging>
    requires merges { Merges out x.now y.now scratch.old m }
    requires out_bound { (out < 2047) × (m.first + m.second < length x.now + length y.now) }
    ensures { MatchOption result (both_phases (joined out (out + 1) x.now y.now) ≡ true) (λ n. (m.first + m.second < n.first + n.second) × Merges out x.now y.now scratch.new n) }
{
    let i = m.first;
    let j = m.second;
    let n = m.size;
    let l = head_at(x, i);
    let k = head_at(y, j);
    if l == out {
        return Some(Merging { first: i + 1, ..m });
    }
    if k == out + 1 {
        return Some(Merging { second: j + 1, ..m });
    }
    if l / 2 < k / 2 {
        scratch[n] = l;
        return Some(Merging {
            first: i + 1,
            second: j,
            size: n + 1,
        });
    }
    if k / 2 < l / 2 {
        scratch[n] = k;
        return Some(Merging {
            first: i,
            second: j + 1,
            size: n + 1,
        });
    }
    if l == k {
        scratch[n] = l;
        return Some(Merging {
            first: i + 1,
            second: j + 1,
            size: n + 1,
        });
    }
    None
}

// All literals of the two clauses, but out of the first and its opposite of the second.
pub fn merge_in(scratch: &mut Scratch, x: &[u16], y: &[u16], out: u16) -> Pending
    requires out_bound { out < 2047 }
    requires ordered { Ordered x.now × Ordered y.now }
    ensures { Pends (joined out (out + 1) x.now y.now) scratch.new result }
{
    let mut m = Merging {
        first: 0,
        second: 0,
        size: 0,
    };
    // Kept: a turn goes on in one of the two clauses or in both.
    while m.first + m.second < x.len() + y.len() {
        m = merge_next(scratch, x, y, out, m)?;
    }
    Some(m.size)
}
