// From a listening record to a settled one, and back.
ghost use Rattle.std.specs.Prelude.{◌≡◌};
ghost use Rattle.survivors.specs.Choices.{TableOf};
ghost use Rattle.records.specs.Held.{Held};

use crate::listening::Listening;
use crate::settled::Settled;
use model::measure::Measure;
use model::trellis::Trellis;

impl<T: Trellis, M: Measure> Listening<T, M> {
    // Makes the choices for the samples held, whatever was chosen before.
    pub fn settle(self) -> Settled<T, M>
        ensures seen { result.seen ≡ self.seen }
        ensures chosen { TableOf (T.Trellis.meaning self.seen.trellis) (M.Measure.costs self.seen.measure) self.seen.held.start self.seen.held.samples result.choices }
    {
        let Listening {
            trellis,
            measure,
            mut table,
        } = self;
        let standing = table.decide(&trellis, &measure);
        Settled {
            trellis,
            measure,
            table,
            standing,
        }
    }
}

impl<T: Trellis, M: Measure> Settled<T, M> {
    // Listens again, with the same start, end and samples.
    pub fn resume(self) -> Listening<T, M>
        ensures same { result ≡ self }
        ensures chosen { TableOf (T.Trellis.meaning self.seen.trellis) (M.Measure.costs self.seen.measure) self.seen.held.start self.seen.held.samples self.choices }
    {
        let Settled {
            trellis,
            measure,
            table,
            standing: _,
        } = self;
        Listening {
            trellis,
            measure,
            table,
        }
    }
}
