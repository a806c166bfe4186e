// The frames of a run, one after another on one record.
use crate::checksum::Checksum;
use crate::noise::Noise;
use crate::plan::{Part, Plan};
use crate::signal::Signal;
use algebras::algebra::Algebra;
use algebras::counting::Counting;
use model::measure::Measure;
use model::refusal::Refusal;
use model::trellis::{MOST_STATES, Trellis};
use records::listening::Listening;
use records::settled::Settled;
use survivors::layout::MOST_SAMPLES;

// The samples of a frame, in place of those held.
fn take_frame<T: Trellis, M: Measure, N: Noise>(
    listening: &mut Listening<T, M>,
    signal: &mut Signal<T, N>,
    samples: usize,
) -> Result<(), Refusal> {
    listening.rewind(0)?;
    signal.restart();
    for _ in 0..samples {
        listening.take(signal.sample())?;
    }
    Ok(())
}

// A report whose letters find no room: only whether there is a path.
fn ask_settled<T: Trellis, M: Measure>(settled: &Settled<T, M>, sum: &mut Checksum) {
    if let Err(refusal) = settled.report(&mut [], 0) {
        sum.add_refusal(refusal);
    }
}

fn ask_report<T: Trellis, M: Measure>(
    settled: &Settled<T, M>,
    samples: usize,
    sum: &mut Checksum,
) -> Result<(), Refusal> {
    let mut letters = [0; MOST_SAMPLES];
    let report = settled.report(&mut letters, 0)?;
    sum.add_report(&report);
    sum.add_letters(&letters[..samples.min(MOST_SAMPLES)]);
    Ok(())
}

fn ask_weigh<T: Trellis, M: Measure>(
    settled: &Settled<T, M>,
    sum: &mut Checksum,
) -> Result<(), Refusal> {
    let mut first = [Counting.zero(); MOST_STATES];
    let mut second = [Counting.zero(); MOST_STATES];
    let count = settled.weigh(&Counting, &mut first, &mut second)?;
    sum.add(count.value());
    Ok(())
}

// The questions of a part. A word of the command line names it, so closures in place of the arms would be handed over by
// this same match, and the part that settles nothing would need a loop of its own.
fn ask<T: Trellis, M: Measure>(
    settled: &Settled<T, M>,
    plan: Plan,
    sum: &mut Checksum,
) -> Result<(), Refusal> {
    match plan.part {
        Part::Samples => Ok(()),
        Part::Settle => {
            ask_settled(settled, sum);
            Ok(())
        }
        Part::Report => ask_report(settled, plan.samples, sum),
        Part::Weigh => ask_weigh(settled, sum),
        Part::Whole => {
            ask_report(settled, plan.samples, sum)?;
            ask_weigh(settled, sum)
        }
    }
}

// The frames of a plan, on one record that is settled anew for each; answers the checksum.
pub(crate) fn run<T: Trellis + Copy, M: Measure + Drop, N: Noise>(
    trellis: T,
    measure: M,
    noise: N,
    plan: Plan,
) -> Result<u64, Refusal> {
    let mut sum = Checksum::default();
    let mut signal = Signal::new(trellis, noise);
    let mut listening = Listening::new(trellis, measure);
    for _ in 0..plan.frames {
        take_frame(&mut listening, &mut signal, plan.samples)?;
        if plan.part == Part::Samples {
            continue;
        }
        let settled = listening.settle();
        ask(&settled, plan, &mut sum)?;
        listening = settled.resume();
    }
    Ok(sum.value)
}
