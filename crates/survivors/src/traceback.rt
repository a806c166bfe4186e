// The way back through a table of chosen branches.
ghost use Rattle.std.specs.Prelude.{◌≡◌, ◌<◌, ◌≤◌, length};
ghost use Rattle.model.specs.Trellises.{most_states};
ghost use Rattle.survivors.specs.Choices.{most_samples, table_size, byte_at};
ghost use Rattle.survivors.specs.Laws.{first_back, letters_back};
ghost use Rattle.survivors.specs.Traces.{in_table, traced_first, traced_letters, Traced};

use crate::layout::{MOST_SAMPLES, MOST_STATES, TABLE_SIZE, letter_of, place_of, state_before};

// Whether a table has a state and so many steps.
fn has(state: usize, steps: usize) -> bool
    ensures { result ≡ in_table steps state }
{
    state < MOST_STATES && steps <= MOST_SAMPLES
}

// Goes back from the last state, and writes a letter for each step.
fn walk_back(choices: &[u8], last: usize, letters: &mut [u8]) -> usize
    requires table { length choices.now ≡ table_size }
    requires few { length letters.old ≤ most_samples }
    requires state { last < most_states }
    ensures first { result ≡ first_back (byte_at choices.now) (length letters.old) last }
    ensures letters { letters.new ≡ letters_back (byte_at choices.now) (length letters.old) last }
{
    let mut state = last;
    let steps = letters.len();
    // By place: of letters written through iter_mut().enumerate().rev() a proof would know only how many there are.
    for k in (0..steps).rev() {
        let byte = choices[place_of(k, state)];
        letters[k] = letter_of(byte);
        state = state_before(byte);
    }
    state
}

// Goes back through a table from a last state, as many steps as there are letters, and writes these: the letters of
// the first of the cheapest paths to that state, if one arrives there. Answers its first state. Nothing is written
// and nothing answered where the table has no such state or fewer steps.
pub fn trace(choices: &[u8; TABLE_SIZE], last: usize, letters: &mut [u8]) -> Option<usize>
    ensures first { result ≡ traced_first choices.now (length letters.old) last }
    ensures letters { letters.new ≡ traced_letters choices.now last letters.old }
    ensures path { Traced choices.now last letters.new result }
{
    // An if and not `then`: on this side letters are written, and nothing on the other.
    if has(last, letters.len()) {
        Some(walk_back(choices, last, letters))
    } else {
        None
    }
}
