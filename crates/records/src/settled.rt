// A record whose choices are made.
ghost use Rattle.std.specs.Prelude.{◌≡◌};

use crate::table::Table;
use model::measure::Measure;
use model::trellis::Trellis;
use std::marker::Model;
use survivors::standing::Standing;

#[derive(Drop)]
pub struct Settled<T: Trellis, M: Measure> {
    pub(crate) trellis: T,
    pub(crate) measure: M,
    pub(crate) table: Table,
    // where the reported path ends and how it compares with the others, if there is one
    pub(crate) standing: Option<Standing>,
}

// The bytes and the standing are those of its own trellis, measure, start, end and samples.
impl<T: Trellis, M: Measure> Model for Settled<T, M> {
    ghost use Rattle.records.specs.Seen.{Shown};

    ghost Value = { Shown T M };

    ghost use Rattle.records.specs.Tables.{held_of};
    ghost use Rattle.records.specs.Sound.{Sound};

    ghost view = { λ s. record { seen = record { trellis = s.trellis; measure = s.measure; held = held_of s.table }; choices = s.table.choices; memory = s.table.samples } };

    ghost invariant = { λ s. Sound (T.Trellis.meaning s.trellis) (M.Measure.costs s.measure) s.table s.standing };
}
