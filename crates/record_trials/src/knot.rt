// A trellis in which of two equally cheap ways into state 0 the first has the lower state before it and the higher
// letter.
ghost use Rattle.record_trials.specs.Knots.{knot};
ghost use Rattle.std.proofs.Common.{rules};

use model::trellis::Trellis;

#[derive(Clone, Copy)]
pub(crate) struct Knot;

impl Trellis for Knot {
    ghost meaning = { λ _. knot };

    ghost lawful = { Prim.search rules };

    fn states(&self) -> usize {
        3
    }

    fn letters(&self) -> usize {
        3
    }

    fn branch(&self, state: usize, letter: usize) -> Option<(usize, i16)> {
        match (state, letter) {
            (0, 0) => Some((1, 1)),
            (0, 2) => Some((0, 1)),
            (1, 0) => Some((0, 1)),
            (1, 1) => Some((2, -1)),
            (2, 1) => Some((1, 2)),
            (2, 2) => Some((1, 2)),
            _ => None,
        }
    }
}
