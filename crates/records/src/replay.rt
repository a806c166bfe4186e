// A list of calls, run on a new record, and the answers of that record if it is settled then.
ghost use Rattle.std.specs.Prelude.{◌≡◌, length, take};
ghost use Rattle.records.specs.Runs.{has, turned, allowed, settled_after, held_after};
ghost use Rattle.records.specs.Records.{is_settled, held_in, trellis_of, measure_of};
ghost use Rattle.records.specs.Laws.{lent, AnswersAs};

use crate::answers::{Answers, Replay};
use crate::call::Call;
use crate::listening::Listening;
use crate::making::make_call;
use crate::record::Record;
use algebras::algebra::Algebra;
use model::measure::Measure;
use model::trellis::Trellis;

// Whether a record has a call, by its state.
fn has_call(settled: bool, call: Call) -> bool
    ensures { result ≡ has settled call }
{
    match call {
        Call::Anchor(_, _) | Call::Take(_) | Call::Rewind(_) | Call::Settle => !settled,
        Call::Resume | Call::Report(_, _) | Call::Weigh(_, _) => settled,
    }
}

// Whether a record is settled after a call that it has.
fn turn(settled: bool, call: Call) -> bool
    ensures { result ≡ turned settled call }
{
    match call {
        Call::Settle => true,
        Call::Resume => false,
        Call::Anchor(_, _)
        | Call::Take(_)
        | Call::Rewind(_)
        | Call::Report(_, _)
        | Call::Weigh(_, _) => settled,
    }
}

// How many calls of a list, from its first on, the states allow. A loop, since each call is judged in the state after those
// before it, which `position` would have to carry.
fn count_allowed(calls: &[Call]) -> usize
    ensures { result ≡ allowed calls.now }
{
    let mut settled = false;
    for (i, call) in calls.iter().enumerate() {
        if !has_call(settled, *call) {
            return i;
        }
        settled = turn(settled, *call);
    }
    calls.len()
}

// A new record after calls that the states allow.
fn run_calls<T: Trellis, M: Measure>(trellis: T, measure: M, calls: &[Call]) -> Record<T, M>
    requires { allowed calls.now ≡ length calls.now }
    ensures settled { is_settled result ≡ settled_after calls.now }
    ensures held { held_in result ≡ held_after (T.Trellis.meaning trellis) calls.now }
    ensures trellis { trellis_of result ≡ trellis }
    ensures measure { measure_of result ≡ measure }
{
    let mut record = Record::Listening(Listening::new(trellis, measure));
    for call in calls {
        let (after, _) = make_call(record, *call);
        record = after;
    }
    record
}

// What a record answers if it is settled: a report and a weigh. What they are lent stays apart, as the two calls take it.
fn ask<T: Trellis, M: Measure, A: Algebra>(
    record: &Record<T, M>,
    algebra: &A,
    letters: &mut [u8],
    place: usize,
    first: &mut [A::Weight],
    second: &mut [A::Weight],
) -> Option<Answers<A::Weight>>
    ensures { AnswersAs (T.Trellis.meaning (trellis_of «record».now)) (M.Measure.costs (measure_of «record».now)) A.Algebra.semiring (held_in «record».now) (is_settled «record».now) place (lent letters.old first.old second.old) (lent letters.new first.new second.new) result }
{
    match record {
        Record::Listening(_) => None,
        Record::Settled(settled) => {
            let report = settled.report(letters, place);
            let weigh = settled.weigh(algebra, first, second);
            Some(Answers { report, weigh })
        }
    }
}

// Runs a list of calls on a new record, up to the first call that the record's state has not, and then, if the record
// is settled, asks for a report into the letters from a place on, and for a weigh over the two rows.
pub fn replay<T: Trellis, M: Measure, A: Algebra>(
    trellis: T,
    measure: M,
    calls: &[Call],
    algebra: &A,
    letters: &mut [u8],
    place: usize,
    first: &mut [A::Weight],
    second: &mut [A::Weight],
) -> Replay<T, M, A::Weight>
    ensures made { result.made ≡ allowed calls.now }
    ensures trellis { trellis_of result.«record» ≡ trellis }
    ensures measure { measure_of result.«record» ≡ measure }
    ensures settled { is_settled result.«record» ≡ settled_after (take result.made calls.now) }
    ensures held { held_in result.«record» ≡ held_after (T.Trellis.meaning trellis) (take result.made calls.now) }
    ensures law { AnswersAs (T.Trellis.meaning trellis) (M.Measure.costs measure) A.Algebra.semiring (held_after (T.Trellis.meaning trellis) (take result.made calls.now)) (settled_after (take result.made calls.now)) place (lent letters.old first.old second.old) (lent letters.new first.new second.new) result.answers }
{
    let made = count_allowed(calls);
    let record = run_calls(trellis, measure, &calls[..made]);
    let answers = ask(&record, algebra, letters, place, first, second);
    Replay {
        record,
        made,
        answers,
    }
}
