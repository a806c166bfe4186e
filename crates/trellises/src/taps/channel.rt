// The parameters of a channel with taps.
ghost use Rattle.std.specs.Prelude.{◌≡◌, ◌-◌, ◌^◌, ◌≤◌, true, length};
ghost use Rattle.arrays.specs.Lists.{list_items};
ghost use Rattle.model.specs.Trellises.{most_states};
ghost use Rattle.trellises.specs.Checks.{taps_fit};

use arrays::list::FixedList;

// A number of letters, the taps, and the number of states that follows.
#[derive(Clone, Copy)]
pub struct Channel {
    pub letters: usize,
    pub taps: FixedList<i32, 7>,
    pub states: usize,
    ghost two: { 2 ≤ letters },
    ghost four: { letters ≤ 4 },
    ghost some: { 1 ≤ length (list_items taps) },
    ghost small: { taps_fit (list_items taps) ≡ true },
    ghost all: { states ≡ letters ^ (length (list_items taps) - 1) },
    ghost few: { states ≤ most_states },
}
