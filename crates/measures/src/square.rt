// The squared difference.
ghost use Rattle.measures.specs.Squares.{square};
ghost use Rattle.std.proofs.Common.{rules};

use model::measure::Measure;

#[derive(Clone, Copy)]
pub struct Square;

impl Measure for Square {
    ghost costs = { λ _. square };

    ghost bounded = { Prim.search rules };

    // In 32 bits: `abs_diff` of the two takes four instructions more in the loop that asks, and was measured so.
    fn cost(&self, label: i16, sample: i16) -> u32 {
        let apart = (i32::from(label) - i32::from(sample)).unsigned_abs();
        apart * apart
    }
}
