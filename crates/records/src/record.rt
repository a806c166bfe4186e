// A record in either state.
use crate::listening::Listening;
use crate::settled::Settled;
use model::measure::Measure;
use model::trellis::Trellis;

#[derive(Drop)]
pub enum Record<T: Trellis, M: Measure> {
    Listening(Listening<T, M>),
    Settled(Settled<T, M>),
}
