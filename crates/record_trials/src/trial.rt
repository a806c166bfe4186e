// A list of calls under a name, and how it is tried: made one by one on a new record, a line for each, and then
// replayed.
ghost use Rattle.std.specs.Prelude.{◌≡◌, length};
ghost use Rattle.records.specs.Held.{Held};
ghost use Rattle.records.specs.Records.{held_in};

use crate::showing::Shown;
use algebras::algebra::Algebra;
use algebras::counting::Counting;
use model::measure::Measure;
use model::trellis::{MOST_STATES, Trellis};
use records::answers::Replay;
use records::call::Call;
use records::listening::Listening;
use records::making::make_call;
use records::record::Record;
use records::replay::replay;
use std::io;

#[derive(Clone, Copy)]
pub(crate) struct Trial<'a> {
    name: &'a str,
    calls: &'a [Call],
    // How many calls, from the first on, share one line.
    quiet: usize,
    // The length of the buffer that the replay writes letters into, and the place.
    room: usize,
    place: usize,
}

// The most bytes of that buffer.
const MOST_ROOM: usize = 520;

impl<'a> Trial<'a> {
    pub(crate) fn new(name: &'a str, calls: &'a [Call]) -> Trial<'a> {
        Trial {
            name,
            calls,
            quiet: 0,
            room: 8,
            place: 0,
        }
    }

    pub(crate) fn with_quiet(self, quiet: usize) -> Trial<'a> {
        Trial { quiet, ..self }
    }

    pub(crate) fn with_room(self, room: usize, place: usize) -> Trial<'a> {
        Trial {
            room,
            place,
            ..self
        }
    }
}

// The record after the quiet calls, and how many of them were accepted. The record goes by value from call to call, so
// the accepted ones are counted on the way.
fn make_quiet<T: Trellis + Drop, M: Measure + Drop>(
    mut record: Record<T, M>,
    trial: Trial<'_>,
) -> (Record<T, M>, usize) {
    let mut accepted = 0usize;
    for call in trial.calls.iter().take(trial.quiet) {
        let (after, answer) = make_call(record, *call);
        record = after;
        if answer == Some(Ok(())) {
            accepted = accepted.saturating_add(1);
        }
    }
    (record, accepted)
}

// The other calls, a line for each.
fn make_others<T: Trellis + Drop, M: Measure + Drop>(
    rt: &HostRuntime,
    mut record: Record<T, M>,
    trial: Trial<'_>,
) -> io::Result<()> {
    for call in trial.calls.iter().skip(trial.quiet) {
        let (after, answer) = make_call(record, *call);
        record = after;
        println!(rt; "{call:?}: {}", Shown(answer))?;
    }
    Ok(())
}

// Makes the calls one by one. One that is not allowed leaves the record as it was, and the next is made on it.
fn make_all<T: Trellis + Drop, M: Measure + Drop>(
    rt: &HostRuntime,
    trellis: T,
    measure: M,
    trial: Trial<'_>,
) -> io::Result<()> {
    println!(rt; "-- {}", trial.name)?;
    let (record, accepted) = make_quiet(Record::Listening(Listening::new(trellis, measure)), trial);
    if trial.quiet > 0 {
        println!(rt; "{} calls: {accepted} accepted", trial.quiet)?;
    }
    make_others(rt, record, trial)
}

// How many samples a record holds, in either state.
fn count_samples<T: Trellis + Drop, M: Measure + Drop>(record: Record<T, M>) -> usize
    ensures { result ≡ length (held_in «record»).samples }
{
    match record {
        Record::Listening(listening) => listening.held(),
        Record::Settled(settled) => settled.resume().held(),
    }
}

// Replays the calls and shows what came of it: how many were made, the report and the number of paths if the record is
// settled, the buffer, which held nines before, and how many samples the record holds.
fn replay_all<T: Trellis + Drop, M: Measure + Drop>(
    rt: &HostRuntime,
    trellis: T,
    measure: M,
    trial: Trial<'_>,
) -> io::Result<()> {
    let mut letters = [9; MOST_ROOM];
    let buffer = &mut letters[..trial.room.min(MOST_ROOM)];
    let Replay {
        record,
        made,
        answers,
    } = replay(
        trellis,
        measure,
        trial.calls,
        &Counting,
        buffer,
        trial.place,
        &mut [Counting.zero(); MOST_STATES],
        &mut [Counting.zero(); MOST_STATES],
    );
    let held = count_samples(record);
    println!(rt;
        "replayed {made} of {}, {held} samples held",
        trial.calls.len()
    )?;
    match answers {
        Some(answers) => {
            println!(rt; "{}", Shown(answers.report))?;
            println!(rt; "{}", Shown(answers.weigh))?;
        }
        None => println!(rt; "not settled")?,
    }
    println!(rt; "buffer {}", Shown(&*buffer))
}

// Tries each list on a trellis and a measure: call by call, and then replayed. Not every trellis can be copied, so each
// of the two is given one of its own.
pub(crate) fn try_each<T: Trellis + Drop, M: Measure + Copy, F: Fn() -> T>(
    rt: &HostRuntime,
    make_trellis: F,
    measure: M,
    trials: &[Trial<'_>],
) -> io::Result<()>
    requires { F.IsAlwaysCallable make_trellis }
{
    for trial in trials {
        make_all(rt, make_trellis(), measure, *trial)?;
        replay_all(rt, make_trellis(), measure, *trial)?;
    }
    Ok(())
}

// One sample again and again, and then a settle.
pub(crate) fn settled_after<const N: usize>(sample: i16) -> [Call; N] {
    let mut calls = [Call::Take(sample); N];
    if let Some(last) = calls.last_mut() {
        *last = Call::Settle;
    }
    calls
}
