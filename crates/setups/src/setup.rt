// A setup: what an accepted description says of a channel.
use lines::form::{CodeLine, MeasureLine, RllLine, TapsLine};

// The four accepted kinds of trellis, each with the lines that it is made from.
#[derive(Clone, Copy)]
pub enum TrellisSetup {
    Taps(TapsLine),
    Code(CodeLine),
    CodeOverTaps(CodeLine, TapsLine),
    RllOverTaps(RllLine, TapsLine),
}

// A trellis, a measure, and the states at which a path starts and ends, any where absent.
#[derive(Clone, Copy)]
pub struct Setup {
    pub trellis: TrellisSetup,
    pub measure: MeasureLine,
    pub start: Option<i32>,
    pub end: Option<i32>,
}
