// The trellis of checked parameters.
ghost use Rattle.model.specs.Bare.{or_bare, or_bare_lawful};

use model::trellis::Trellis;

// What was accepted; without it the trellis is bare. A type of its own, so that each kind of parameters can have its check and
// its making on it.
#[derive(Clone, Copy)]
pub struct OrBare<P> {
    pub(crate) accepted: Option<P>,
}

impl<P: Trellis> Trellis for OrBare<P> {
    ghost meaning = { λ t. or_bare P.Trellis.meaning t.accepted };

    ghost lawful = { λ t. or_bare_lawful P.Trellis.meaning P.Trellis.lawful t.accepted };

    fn states(&self) -> usize {
        self.accepted.states()
    }

    fn letters(&self) -> usize {
        self.accepted.letters()
    }

    fn branch(&self, state: usize, letter: usize) -> Option<(usize, i16)> {
        self.accepted.branch(state, letter)
    }
}
