// A measure: how far apart label and sample are.
ghost use Rattle.path_trials.specs.Distances.{distance};
ghost use Rattle.std.proofs.Common.{rules};

use model::measure::Measure;

#[derive(Clone, Copy)]
pub(crate) struct Apart;

impl Measure for Apart {
    ghost costs = { λ _. distance };

    ghost bounded = { Prim.search rules };

    fn cost(&self, label: i16, sample: i16) -> u32 {
        (i32::from(label) - i32::from(sample)).unsigned_abs()
    }
}
