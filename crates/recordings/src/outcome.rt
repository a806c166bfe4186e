// What a recording gives: how many samples are held, how many admissible paths there are, modulo 2 ^ 64, and the report.
use records::report::Report;

#[derive(Clone, Copy, Debug, PartialEq, Eq)]
pub struct Outcome {
    pub samples: usize,
    pub paths: u64,
    pub report: Report,
}
