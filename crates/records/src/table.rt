// What a record holds beside its trellis and its measure, in fixed memory.
ghost use Rattle.std.specs.Prelude.{◌≡◌};
ghost use Rattle.records.specs.Tables.{held_of};
ghost use Rattle.records.specs.Sound.{Sound};

use arrays::list::FixedList;
use model::measure::Measure;
use model::trellis::Trellis;
use survivors::layout::{MOST_SAMPLES, TABLE_SIZE};
use survivors::standing::Standing;
use survivors::standings::survey;

// Start and end, absent where any state is permitted, the samples, and a byte for each step and state.
#[derive(Drop)]
pub struct Table {
    pub(crate) start: Option<usize>,
    pub(crate) end: Option<usize>,
    pub(crate) samples: FixedList<i16, MOST_SAMPLES>,
    pub(crate) choices: [u8; TABLE_SIZE],
}

impl Table {
    // Makes the bytes those of the samples, whatever they were, and answers where the reported path ends and how it
    // compares with the others, if there is one.
    pub(crate) fn decide<T: Trellis, M: Measure>(
        &mut self,
        trellis: &T,
        measure: &M,
    ) -> Option<Standing>
        ensures sound { Sound (T.Trellis.meaning trellis.now) (M.Measure.costs measure.now) self.new result }
        ensures held { held_of self.new ≡ held_of self.old }
    {
        survey(
            trellis,
            measure,
            self.samples.as_slice(),
            self.start,
            self.end,
            &mut self.choices,
        )
    }
}
