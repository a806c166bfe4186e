// The cascade of any trellis over any other.
ghost use Rattle.std.specs.Prelude.{◌≡◌};
ghost use Rattle.model.specs.Refusals.{answer};
ghost use Rattle.trellises.specs.Cascades.{cascade_fits, cascade_check, cascade_trellis, cascade_meaning};
ghost use Rattle.trellises.specs.Laws.{cascade_lawful};

use model::refusal::Refusal;
use model::trellis::{MOST_STATES, Trellis};

// The inner trellis takes the outer's labels for its letters; with too many states the cascade is bare.
// It holds both parts even then: to let them go would ask more of each than that it is a trellis.
#[derive(Drop)]
pub struct Cascade<O, I> {
    outer: O,
    inner: I,
}

impl<O: Trellis, I: Trellis> Cascade<O, I> {
    // Whether the two have few enough states together; a test and its two answers, as in a run-length limit.
    pub fn check(outer: &O, inner: &I) -> Result<(), Refusal>
        ensures { answer result ≡ cascade_check (O.Trellis.meaning outer.now) (I.Trellis.meaning inner.now) }
    {
        if outer.states() * inner.states() <= MOST_STATES {
            Ok(())
        } else {
            Err(Refusal::CascadeStates)
        }
    }

    // The outer trellis over the inner one, bare where they are refused.
    pub fn new(outer: O, inner: I) -> Self
        ensures { cascade_meaning O.Trellis.meaning I.Trellis.meaning result ≡ cascade_trellis (O.Trellis.meaning outer) (I.Trellis.meaning inner) }
    {
        Cascade { outer, inner }
    }

    // Whether it is not bare.
    fn fits(&self) -> bool
        ensures { result ≡ cascade_fits (O.Trellis.meaning self.now.outer) (I.Trellis.meaning self.now.inner) }
    {
        Self::check(&self.outer, &self.inner).is_ok()
    }
}

impl<O: Trellis, I: Trellis> Trellis for Cascade<O, I> {
    ghost meaning = { cascade_meaning O.Trellis.meaning I.Trellis.meaning };

    ghost lawful = { λ t. cascade_lawful _ _ (O.Trellis.lawful t.outer) (I.Trellis.lawful t.inner) };

    fn states(&self) -> usize {
        if self.fits() {
            self.outer.states() * self.inner.states()
        } else {
            1
        }
    }

    fn letters(&self) -> usize {
        if self.fits() { self.outer.letters() } else { 1 }
    }

    fn branch(&self, state: usize, letter: usize) -> Option<(usize, i16)> {
        if !self.fits() {
            return None;
        }
        let inner_states = self.inner.states();
        let (outer, label) = self.outer.branch(state / inner_states, letter)?;
        let inner_letter = usize::try_from(label).ok()?;
        let (inner, shown) = self.inner.branch(state % inner_states, inner_letter)?;
        Some((outer * inner_states + inner, shown))
    }
}
