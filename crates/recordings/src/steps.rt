// The steps of reading a recording: its description, its sample blocks, and what its end block asks for.
ghost use Rattle.std.specs.Prelude.{◌≡◌, suc, ◌≤◌, cond, length, IfOk};
ghost use Rattle.model.specs.Refusals.{outcome};
ghost use Rattle.algebras.specs.Counts.{counting};
ghost use Rattle.records.specs.Held.{Held};
ghost use Rattle.records.specs.Seen.{with_held};
ghost use Rattle.records.specs.Asked.{sum_in};
ghost use Rattle.blocks.specs.Samples.{samples_of};
ghost use Rattle.recordings.specs.Recordings.{set_up, take_all, read_blocks, detected, outcome_in, buffer_after};
ghost use Rattle.recordings.specs.Steps.{at_block, held_then, ended};

use crate::outcome::Outcome;
use algebras::algebra::Algebra;
use algebras::counting::Counting;
use blocks::block::{Block, HEADER_SIZE, block_at};
use blocks::sample::Samples;
use descriptions::reader::read_description;
use model::measure::Measure;
use model::refusal::{Fault, Layer, Refusal};
use model::trellis::{MOST_STATES, Trellis};
use records::listening::Listening;
use records::settled::Settled;
use setups::setup::Setup;

// A call of the record that is refused while the block at a place is handled is a fault at that place.
fn at_block<A: Drop>(answered: Result<A, Refusal>, place: usize) -> Result<A, Fault>
    ensures { outcome result ≡ at_block answered place }
{
    answered.map_err(|refusal| refusal.at(Layer::Calls, place))
}

// The setup of the description in the first block, and where the next block begins.
pub(crate) fn read_setup(recording: &[u8]) -> Result<(Setup, usize), Fault>
    ensures value { outcome result ≡ set_up recording.now }
    ensures within { IfOk result (λ s. s.1 ≤ length recording.now) }
{
    let (_, next) = block_at(recording, 0, true)?;
    let setup = read_description(&recording[..next], HEADER_SIZE)?;
    Ok((setup, next))
}

// Takes the samples of the block at a place, one after another.
fn take_samples<T: Trellis, M: Measure>(
    record: &mut Listening<T, M>,
    payload: &[u8],
    place: usize,
) -> Result<(), Fault>
    ensures held { held_then (outcome result) «record».new.seen.held ≡ take_all place «record».old.seen.held (samples_of payload.now) }
    ensures others { «record».new.seen ≡ with_held «record».old.seen «record».new.seen.held }
{
    for sample in Samples::new(payload) {
        at_block(record.take(sample), place)?;
    }
    Ok(())
}

// Takes the samples of the blocks from a place on, up to the end block, and answers where that one begins.
pub(crate) fn read_blocks<T: Trellis, M: Measure>(
    recording: &[u8],
    from: usize,
    record: &mut Listening<T, M>,
) -> Result<usize, Fault>
    ensures held { ended (outcome result) «record».new.seen.held ≡ read_blocks (suc (length recording.now)) recording.now from «record».old.seen.held }
    ensures others { «record».new.seen ≡ with_held «record».old.seen «record».new.seen.held }
{
    // The place is kept by the loop, since that of the end block is the answer.
    let mut place = from;
    while let (Block::Samples(payload), next) = block_at(recording, place, false)? {
        take_samples(record, payload, place)?;
        place = next;
    }
    Ok(place)
}

// How many admissible paths there are, modulo 2 ^ 64.
fn count_paths<T: Trellis, M: Measure>(settled: &Settled<T, M>) -> u64
    ensures { result ≡ (sum_in T.Trellis.meaning M.Measure.costs counting settled.now.seen).value }
{
    let mut first = [Counting.zero(); MOST_STATES];
    let mut second = [Counting.zero(); MOST_STATES];
    let paths = settled.weigh(&Counting, &mut first, &mut second).unwrap();
    paths.value()
}

// What is detected behind what a record holds, at the end block's place.
pub(crate) fn detect_at<T: Trellis + Drop, M: Measure + Drop>(
    record: Listening<T, M>,
    place: usize,
    letters: &mut [u8],
    at: usize,
) -> Result<Outcome, Fault>
    ensures value { outcome result ≡ outcome_in (detected (T.Trellis.meaning «record».seen.trellis) (M.Measure.costs «record».seen.measure) at (length letters.old) «record».seen.held place) }
    ensures letters { letters.new ≡ buffer_after (detected (T.Trellis.meaning «record».seen.trellis) (M.Measure.costs «record».seen.measure) at (length letters.old) «record».seen.held place) at letters.old }
{
    let samples = record.held();
    let settled = record.settle();
    let report = at_block(settled.report(letters, at), place)?;
    Ok(Outcome {
        samples,
        paths: count_paths(&settled),
        report,
    })
}
