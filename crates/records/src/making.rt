// One call of a list, made on a record in either state.
ghost use Rattle.std.specs.Prelude.{◌≡◌};
ghost use Rattle.model.specs.Refusals.{answer};
ghost use Rattle.records.specs.Runs.{call_check};
ghost use Rattle.records.specs.Records.{Made};

use crate::call::Call;
use crate::listening::Listening;
use crate::record::Record;
use crate::settled::Settled;
use algebras::algebra::Algebra;
use algebras::counting::Counting;
use model::measure::Measure;
use model::refusal::Refusal;
use model::trellis::{MOST_STATES, Trellis};

// The most bytes of the buffer that a report in a list is given.
pub const MOST_BUFFER: usize = 1024;

// A report into a buffer of its own, of so many bytes.
fn try_report<T: Trellis, M: Measure>(
    settled: &Settled<T, M>,
    length: usize,
    place: usize,
) -> Result<(), Refusal>
    ensures { answer result ≡ call_check (T.Trellis.meaning settled.now.seen.trellis) (M.Measure.costs settled.now.seen.measure) settled.now.seen.held (Call.Report length place) }
{
    let mut buffer = [0; MOST_BUFFER];
    settled.report(&mut buffer[..length.min(MOST_BUFFER)], place)?;
    Ok(())
}

// A weigh in the count algebra over two rows of its own, of so many entries; more than a trellis can have states make no
// difference.
fn try_weigh<T: Trellis, M: Measure>(
    settled: &Settled<T, M>,
    first: usize,
    second: usize,
) -> Result<(), Refusal>
    ensures { answer result ≡ call_check (T.Trellis.meaning settled.now.seen.trellis) (M.Measure.costs settled.now.seen.measure) settled.now.seen.held (Call.Weigh first second) }
{
    let mut one = [Counting.zero(); MOST_STATES];
    let mut two = [Counting.zero(); MOST_STATES];
    settled.weigh(
        &Counting,
        &mut one[..first.min(MOST_STATES)],
        &mut two[..second.min(MOST_STATES)],
    )?;
    Ok(())
}

// A call on a listening record.
fn call_listening<T: Trellis, M: Measure>(
    listening: Listening<T, M>,
    call: Call,
) -> (Record<T, M>, Option<Result<(), Refusal>>)
    ensures { Made T.Trellis.meaning M.Measure.costs (Record.Listening listening) call result.0 result.1 }
{
    let mut listening = listening;
    let answer = match call {
        Call::Anchor(start, end) => listening.anchor(start, end),
        Call::Take(sample) => listening.take(sample),
        Call::Rewind(n) => listening.rewind(n),
        Call::Settle => return (Record::Settled(listening.settle()), Some(Ok(()))),
        Call::Resume | Call::Report(_, _) | Call::Weigh(_, _) => {
            return (Record::Listening(listening), None);
        }
    };
    (Record::Listening(listening), Some(answer))
}

// A call on a settled record.
fn call_settled<T: Trellis, M: Measure>(
    settled: Settled<T, M>,
    call: Call,
) -> (Record<T, M>, Option<Result<(), Refusal>>)
    ensures { Made T.Trellis.meaning M.Measure.costs (Record.Settled settled) call result.0 result.1 }
{
    let answer = match call {
        Call::Resume => return (Record::Listening(settled.resume()), Some(Ok(()))),
        Call::Report(length, place) => Some(try_report(&settled, length, place)),
        Call::Weigh(first, second) => Some(try_weigh(&settled, first, second)),
        Call::Anchor(_, _) | Call::Take(_) | Call::Rewind(_) | Call::Settle => None,
    };
    (Record::Settled(settled), answer)
}

// Makes a call on a record, and answers the record after it with what the call answered, nothing where the record's
// state has no such call: then the record is as it was.
pub fn make_call<T: Trellis, M: Measure>(
    record: Record<T, M>,
    call: Call,
) -> (Record<T, M>, Option<Result<(), Refusal>>)
    ensures { Made T.Trellis.meaning M.Measure.costs «record» call result.0 result.1 }
{
    match record {
        Record::Listening(listening) => call_listening(listening, call),
        Record::Settled(settled) => call_settled(settled, call),
    }
}
