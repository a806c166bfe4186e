// The trellis interface, and the question whether a number names a state.
ghost use Rattle.std.specs.Prelude.{◌≡◌};
ghost use Rattle.std.specs.Result.{result_ok};
ghost use Rattle.model.specs.Refusals.{answer};
ghost use Rattle.model.specs.Trellises.{Diagram, Lawful, state_of, state_check};
ghost use Rattle.model.specs.Bare.{or_bare, or_bare_lawful};

use crate::refusal::Refusal;

// The most states and the most letters that a trellis has.
pub const MOST_STATES: usize = 64;

pub const MOST_LETTERS: usize = 4;

// A trellis of 1 to 64 states and 1 to 4 letters, with at most one branch for each state and letter.
pub trait Trellis {
    ghost meaning: { Self → Diagram };

    fn states(&self) -> usize
        ensures { result ≡ (meaning self.now).states };

    fn letters(&self) -> usize
        ensures { result ≡ (meaning self.now).letters };

    // The next state and the label; nothing where there is no such branch, state or letter.
    fn branch(&self, state: usize, letter: usize) -> Option<(usize, i16)>
        ensures { result ≡ (meaning self.now).branch state letter };

    ghost lawful: { (t : Self) → Lawful (meaning t) };
}

// A trellis that may be absent: one state, one letter and no branch where it is.
impl<T: Trellis> Trellis for Option<T> {
    ghost meaning = { or_bare T.Trellis.meaning };

    ghost lawful = { λ t. or_bare_lawful T.Trellis.meaning T.Trellis.lawful t };

    fn states(&self) -> usize {
        self.as_ref().map_or(1, |trellis| trellis.states())
    }

    fn letters(&self) -> usize {
        self.as_ref().map_or(1, |trellis| trellis.letters())
    }

    fn branch(&self, state: usize, letter: usize) -> Option<(usize, i16)> {
        self.as_ref()?.branch(state, letter)
    }
}

// The state that a number names, or the refusal where it names none.
pub fn state_named<T: Trellis>(trellis: &T, number: i32) -> Result<usize, Refusal>
    ensures value { result_ok result ≡ state_of (T.Trellis.meaning trellis.now) number }
    ensures checked { answer result ≡ state_check (T.Trellis.meaning trellis.now) number }
{
    match usize::try_from(number) {
        Ok(state) if state < trellis.states() => Ok(state),
        _ => Err(Refusal::NotAState),
    }
}
