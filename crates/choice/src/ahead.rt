// The best so far of the steps of kind 6 or 7, from the leftmost variable on.
ghost use Rattle.std.specs.Prelude.{◌≡◌};
ghost use Rattle.choice.specs.Chosen.{considered, nothing_yet};

use crate::{Lack, Standing};
use growth::Weighed;

impl Standing {
    // No variable yet.
    pub fn new(below: usize) -> Self
        ensures { result ≡ nothing_yet below }
    {
        Self {
            best: Err(Lack::Steps),
            below,
        }
    }

    // One variable more, and what its result would weigh. That one more failed only for room makes no difference where a step counts.
    pub fn after(self, a: usize, w: Weighed) -> Self
        ensures { result ≡ considered self a w }
    {
        match w {
            Weighed::Over => self,
            Weighed::Fitting(n) => Self {
                best: Ok(a),
                below: n,
            },
            Weighed::Wide => Self {
                best: self.best.or(Err(Lack::Room)),
                ..self
            },
        }
    }
}
