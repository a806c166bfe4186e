// The run-length limit.
ghost use Rattle.std.specs.Prelude.{◌≡◌};
ghost use Rattle.std.specs.Result.{result_ok};
ghost use Rattle.model.specs.Bare.{or_bare};
ghost use Rattle.model.specs.Refusals.{answer};
ghost use Rattle.trellises.specs.RunLengths.{run_length_check, run_length_trellis, limits_meaning, run_length_meaning};
ghost use Rattle.std.proofs.Common.{rules};

use crate::or_bare::OrBare;
use model::refusal::Refusal;
use model::trellis::Trellis;

mod limits;

use limits::Limits;

// The state counts the zeros since the last one; without limits the trellis is bare.
pub type RunLength = OrBare<Limits>;

impl RunLength {
    // Whether d and k are limits. A test and its two answers: `then_some` and `ok_or` would say them backwards.
    pub fn check(d: i32, k: i32) -> Result<(), Refusal>
        ensures { answer result ≡ run_length_check d k }
    {
        if (0..=k).contains(&d) && k <= 63 {
            Ok(())
        } else {
            Err(Refusal::RunLength)
        }
    }

    // The limit of at least d and at most k zeros, bare where they are refused.
    pub fn new(d: i32, k: i32) -> Self
        ensures { run_length_meaning result ≡ run_length_trellis d k }
    {
        OrBare {
            accepted: Limits::new(d, k).ok(),
        }
    }
}

impl Limits {
    // The limits d and k, where they are limits.
    fn new(d: i32, k: i32) -> Result<Self, Refusal>
        ensures { or_bare limits_meaning (result_ok result) ≡ run_length_trellis d k }
    {
        RunLength::check(d, k)?;
        Ok(Limits {
            least: d as usize,
            most: k as usize,
        })
    }
}

impl Trellis for Limits {
    ghost meaning = { limits_meaning };

    ghost lawful = { Prim.search rules };

    fn states(&self) -> usize {
        self.most + 1
    }

    fn letters(&self) -> usize {
        2
    }

    fn branch(&self, state: usize, letter: usize) -> Option<(usize, i16)> {
        match letter {
            0 if state < self.most => Some((state + 1, 0)),
            1 if (self.least..=self.most).contains(&state) => Some((0, 1)),
            _ => None,
        }
    }
}
