// The run: at each point the choice, then the step and its entry in the log, until the run is over or stopped.
ghost use Rattle.std.specs.Prelude.{◌≡◌, ◌≤◌, length, Some};
ghost use Rattle.meaning.specs.Formula.{Formula};
ghost use Rattle.rules.specs.Run as rules;
ghost use Rattle.apply.specs.Applied.{Lends, Lent};
ghost use Rattle.course.specs.Course.{RanAs};

use crate::Running;
use crate::between::{advance, choose_between, clear_spare};
use crate::logs::put_entry;
use choice::{End, Next};
use table::Counts;

// What is given back of a run that ends by itself.
fn over(end: End, counts: Counts, steps: usize) -> Running
    ensures { result ≡ record { outcome = Some end; counts = counts; steps = steps } }
{
    Running {
        outcome: Some(end),
        counts,
        steps,
    }
}

// The run from the formula that the record names, with this allowance, at most so many steps, and a log.
pub fn run(
    first: &mut [u16],
    second: &mut [u16],
    c: Counts,
    allowance: usize,
    limit: usize,
    log: &mut [u8],
) -> Running
    requires { Lent first.old second.old c × (allowance ≤ 1000) }
    ensures { (φ : Formula) → Lends φ first.old second.old c → RanAs (rules.run allowance limit (length log.old) φ) c.second log.old result first.new second.new log.new }
{
    let room = limit.min(log.len() / 4);
    clear_spare(first, second, c);
    let mut d = c;
    let mut n = 0;
    let mut searched = 0;
    // Kept: no range counts the turns, since the choice comes before the test of the limit, at the last turn too.
    loop {
        let chosen = choose_between(first, second, d, allowance, searched);
        match chosen.next {
            Next::Over(end) => {
                return over(end, d, n);
            }
            Next::Step(entry) => {
                if n == room {
                    return Running {
                        outcome: None,
                        counts: d,
                        steps: n,
                    };
                }
                put_entry(&mut log[4 * n..], entry);
                d = advance(first, second, d, entry);
                searched = chosen.searched;
                n += 1;
            }
        }
    }
}
