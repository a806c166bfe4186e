// A trellis in which the branches into one state come from different states by different letters.
ghost use Rattle.path_trials.specs.Tangles.{tangle};
ghost use Rattle.std.proofs.Common.{rules};

use model::trellis::Trellis;

#[derive(Clone, Copy)]
pub(crate) struct Tangle;

impl Trellis for Tangle {
    ghost meaning = { λ _. tangle };

    ghost lawful = { Prim.search rules };

    fn states(&self) -> usize {
        4
    }

    fn letters(&self) -> usize {
        3
    }

    fn branch(&self, state: usize, letter: usize) -> Option<(usize, i16)> {
        match (state, letter) {
            (0, 0) => Some((1, 1)),
            (0, 1) => Some((0, 1)),
            (1, 0) => Some((0, 1)),
            (1, 1) => Some((2, -1)),
            (1, 2) => Some((3, 5)),
            (2, 1) => Some((1, 2)),
            (2, 2) => Some((1, 2)),
            _ => None,
        }
    }
}
