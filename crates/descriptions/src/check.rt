// The checks of a setup: of its trellises, its measure, its start and its end, in this order.
ghost use Rattle.std.specs.Prelude.{◌≡◌, [], ◌∷◌, ℤ};
ghost use Rattle.model.specs.Refusals.{answer};
ghost use Rattle.descriptions.specs.Channels.{channel_meaning, channel_of};
ghost use Rattle.descriptions.specs.Checks.{place, fault_or_none, faulted, taps_answer, code_answer, run_length_answer, measure_answer, anchor_answer, trellis_answers, other_answers, answers, first_fault};

use crate::channel::{Channel, code_from, run_length_from, taps_from};
use lines::form::{CodeLine, MeasureLine, RllLine, TapsLine};
use measures::bits::Bits;
use model::refusal::{Fault, Layer, Refusal};
use model::trellis::state_named;
use setups::held::{HeldLines, Placed};
use setups::setup::{Setup, TrellisSetup};
use trellises::cascade::Cascade;
use trellises::code::Code;
use trellises::run_length::RunLength;
use trellises::taps::Taps;

// Where a line begins, 0 where there is none.
fn place_of<T: Copy>(line: &Option<Placed<T>>) -> usize
    ensures { result ≡ place line.now }
{
    line.map_or(0, |line| line.place)
}

// What a check answers, at the line that it is about.
fn at<T: Drop>(answered: Result<T, Refusal>, place: usize) -> Result<(), Fault>
    ensures { faulted result ≡ fault_or_none (answer answered) place }
{
    answered
        .map(|_| ())
        .map_err(|refusal| refusal.at(Layer::Makers, place))
}

// A line and its place come apart in the checks: a setup has the lines, and the lines that are held have the places.
fn check_taps(line: &TapsLine, place: usize) -> Result<(), Fault>
    ensures { faulted result ≡ fault_or_none (taps_answer line.now) place }
{
    at(Taps::check(line.letters, line.taps.as_slice()), place)
}

fn check_code(line: &CodeLine, place: usize) -> Result<(), Fault>
    ensures { faulted result ≡ fault_or_none (code_answer line.now) place }
{
    at(
        Code::check(
            line.constraint_length,
            line.inversion,
            line.generators.as_slice(),
        ),
        place,
    )
}

fn check_run_length(line: &RllLine, place: usize) -> Result<(), Fault>
    ensures { faulted result ≡ fault_or_none (run_length_answer line.now) place }
{
    at(RunLength::check(line.d, line.k), place)
}

fn check_measure(line: &MeasureLine, place: usize) -> Result<(), Fault>
    ensures { faulted result ≡ fault_or_none (measure_answer line.now) place }
{
    match line {
        MeasureLine::Square => Ok(()),
        MeasureLine::Bits(width) => at(Bits::check(*width), place),
    }
}

fn check_anchor(channel: &Channel, state: Option<i32>, place: usize) -> Result<(), Fault>
    ensures { faulted result ≡ fault_or_none (anchor_answer (channel_meaning channel.now) state) place }
{
    state.map_or(Ok(()), |number| at(state_named(channel, number), place))
}

fn check_trellis(setup: &TrellisSetup, held: &HeldLines) -> Result<(), Fault>
    ensures { faulted result ≡ first_fault held.now (trellis_answers setup.now) }
{
    match setup {
        TrellisSetup::Taps(taps) => check_taps(taps, place_of(&held.taps)),
        TrellisSetup::Code(code) => check_code(code, place_of(&held.code)),
        TrellisSetup::CodeOverTaps(code, taps) => {
            check_taps(taps, place_of(&held.taps))?;
            check_code(code, place_of(&held.code))?;
            at(
                Cascade::check(&code_from(code), &taps_from(taps)),
                place_of(&held.code),
            )
        },
        TrellisSetup::RllOverTaps(rll, taps) => {
            check_taps(taps, place_of(&held.taps))?;
            check_run_length(rll, place_of(&held.rll))?;
            at(
                Cascade::check(&run_length_from(rll), &taps_from(taps)),
                place_of(&held.rll),
            )
        },
    }
}

// The checks after those of the trellises.
fn check_others(setup: &Setup, held: &HeldLines) -> Result<(), Fault>
    ensures { faulted result ≡ first_fault held.now (other_answers setup.now) }
{
    check_measure(&setup.measure, place_of(&held.measure))?;
    let channel = Channel::from(&setup.trellis);
    check_anchor(&channel, setup.start, place_of(&held.start))?;
    check_anchor(&channel, setup.end, place_of(&held.end))
}

// The first check of a setup that refuses, at the line that it is about.
pub fn check_setup(setup: &Setup, held: &HeldLines) -> Result<(), Fault>
    ensures { faulted result ≡ first_fault held.now (answers setup.now) }
{
    check_trellis(&setup.trellis, held)?;
    check_others(setup, held)
}
