// How a table of chosen branches is laid out: which byte stands for a branch, and where a byte lies.
ghost use Rattle.std.specs.Prelude.{◌≡◌, ◌/◌, ◌%◌, ◌<◌};
ghost use Rattle.model.specs.Trellises.{most_states, most_letters};
ghost use Rattle.survivors.specs.Choices.{most_samples, place};

// How many bytes each sample has in a table, the most samples that it has bytes for, and how many bytes that is.
pub use model::trellis::MOST_STATES;

pub const MOST_SAMPLES: usize = 512;

pub const TABLE_SIZE: usize = MOST_SAMPLES * MOST_STATES;

// The state before the branch that a byte stands for.
pub(crate) fn state_before(byte: u8) -> usize
    ensures { result ≡ byte / most_letters }
{
    usize::from(byte / 4)
}

// The letter of the branch that a byte stands for.
pub(crate) fn letter_of(byte: u8) -> u8
    ensures { result ≡ byte % most_letters }
{
    byte % 4
}

// Where the byte of a step and a state lies.
pub(crate) fn place_of(step: usize, state: usize) -> usize
    requires step { step < most_samples }
    requires state { state < most_states }
    ensures { result ≡ place step state }
{
    step * MOST_STATES + state
}
