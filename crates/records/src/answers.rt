// What a settled record answers to a report and a weigh.
use crate::record::Record;
use crate::report::Report;
use model::measure::Measure;
use model::refusal::Refusal;
use model::trellis::Trellis;

#[derive(Drop)]
pub struct Answers<W> {
    pub report: Result<Report, Refusal>,
    pub weigh: Result<W, Refusal>,
}

// A record after a list of calls, how many of them were made, and what the record answers if it is settled.
#[derive(Drop)]
pub struct Replay<T: Trellis, M: Measure, W> {
    pub record: Record<T, M>,
    pub made: usize,
    pub answers: Option<Answers<W>>,
}
