// The parameters of a convolutional code.
ghost use Rattle.std.specs.Prelude.{◌≡◌, ◌^◌, ◌<◌, ◌≤◌, length};
ghost use Rattle.arrays.specs.Lists.{list_items};

use arrays::list::FixedList;

// A constraint length, an inversion word and the generators.
#[derive(Clone, Copy)]
pub struct Encoder {
    pub constraint: usize,
    pub inversion: u32,
    pub generators: FixedList<i32, 4>,
    ghost some: { 1 ≤ constraint },
    ghost short: { constraint ≤ 7 },
    ghost inverts: { inversion < 2 ^ length (list_items generators) },
}
