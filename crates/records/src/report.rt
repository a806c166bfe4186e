// What a report answers beside the letters.
ghost use Rattle.std.specs.Prelude.{◌≡◌};

use survivors::standing::Standing;

// The first and the last state of the reported path, what it costs, how many paths cost that, and the least that another
// one costs, if there is another.
#[derive(Clone, Copy, Debug, PartialEq, Eq)]
pub struct Report {
    pub first: usize,
    pub last: usize,
    pub cost: u64,
    pub ties: u64,
    pub second: Option<u64>,
}

impl Report {
    ghost use Rattle.records.specs.Reports.{report_from};

    // The report of a path whose standing and first state are known.
    pub(crate) fn new(standing: Standing, first: usize) -> Report
        ensures { result ≡ report_from standing first }
    {
        Report {
            first,
            last: standing.last,
            cost: standing.cost,
            ties: standing.ties,
            second: standing.second,
        }
    }
}
