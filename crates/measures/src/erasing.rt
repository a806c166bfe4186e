// Erased samples cost nothing.
ghost use Rattle.std.specs.Prelude.{◌≡◌};
ghost use Rattle.model.specs.Refusals.{answer};
ghost use Rattle.measures.specs.Erasings.{erasing};
ghost use Rattle.std.proofs.Common.{rules};

use model::measure::Measure;
use model::refusal::Refusal;

// The sample that stands for one that was lost.
const ERASED: i16 = i16::MIN;

// A measure under which erased samples cost nothing.
#[derive(Clone, Copy, Drop)]
pub struct Erasing<M> {
    below: M,
}

impl<M: Measure> Erasing<M> {
    // Every measure can be below.
    pub fn check(below: &M) -> Result<(), Refusal>
        ensures { answer result ≡ 0 }
    {
        Ok(())
    }

    pub fn new(below: M) -> Erasing<M>
        ensures costs { erasing (M.Measure.costs result.below) ≡ erasing (M.Measure.costs below) }
        ensures kept { result.below ≡ below }
    {
        Erasing { below }
    }
}

impl<M: Measure> Measure for Erasing<M> {
    ghost costs = { λ m. erasing (M.Measure.costs m.below) };

    ghost bounded = { Prim.search rules };

    fn cost(&self, label: i16, sample: i16) -> u32 {
        if sample == ERASED {
            0
        } else {
            self.below.cost(label, sample)
        }
    }
}
