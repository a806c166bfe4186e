// The trellis, the measure and the noise of each workload.
use crate::frames::run;
use crate::noise::{Flips, Small};
use crate::plan::{Plan, Workload};
use measures::bits::Bits;
use measures::square::Square;
use model::refusal::Refusal;
use trellises::code::Code;
use trellises::taps::Taps;

const TAPS: [i32; 7] = [1, 3, 5, -2, 7, 4, 2];

fn run_code(plan: Plan) -> Result<u64, Refusal> {
    let code = Code::new(7, 1, &[0o171, 0o133]);
    run(code, Bits::new(2), Flips, plan)
}

// A channel with the first so many of the taps.
fn run_taps(letters: i32, count: usize, plan: Plan) -> Result<u64, Refusal> {
    let taps = Taps::new(letters, &TAPS[..count.min(TAPS.len())]);
    run(taps, Square, Small, plan)
}

// The checksum of a workload's frames. Here a word of the command line becomes types, so that each arm has its own.
pub(crate) fn run_workload(workload: Workload, plan: Plan) -> Result<u64, Refusal> {
    match workload {
        Workload::Ccsds => run_code(plan),
        Workload::Taps2 => run_taps(2, 7, plan),
        Workload::Taps4 => run_taps(4, 4, plan),
        Workload::Memory(letters) => run_taps(2, letters.saturating_add(1), plan),
    }
}
