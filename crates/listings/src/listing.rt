// The listing of a channel: its sizes, its measure, its start and end, and its branches.
ghost use Rattle.std.specs.Prelude.{◌≡◌, is_ok, IfOk, OnOk, Some};
ghost use Rattle.descriptions.specs.Descriptions.{description as described};
ghost use Rattle.listings.specs.Listings.{with_measure, with_branch, with_state, with_states, with_sizes, listing, either, described_text};

use crate::text::{fault_text, put, put_field, put_line, put_line_or};
use descriptions::channel::Channel;
use descriptions::reader::read_description;
use lines::form::MeasureLine;
use model::trellis::Trellis;
use setups::setup::Setup;
use std::alloc::{AllocError, Global};

fn put_sizes<T: Trellis>(out: &mut Vec<u8>, trellis: &T) -> Result<(), AllocError>
    ensures { OnOk result (out.new.items ≡ with_sizes out.old.items (T.Trellis.meaning trellis.now)) }
{
    put_line(out, b"states ", trellis.states())?;
    put_line(out, b"letters ", trellis.letters())
}

fn put_measure(out: &mut Vec<u8>, measure: MeasureLine) -> Result<(), AllocError>
    ensures { OnOk result (out.new.items ≡ with_measure out.old.items measure) }
{
    match measure {
        MeasureLine::Square => put(out, b"measure square\n"),
        MeasureLine::Bits(width) => put_line(out, b"measure bits ", width),
    }
}

// The line of a branch: state, letter, next state and label.
fn put_branch(
    out: &mut Vec<u8>,
    state: usize,
    letter: usize,
    branch: (usize, i16),
) -> Result<(), AllocError>
    ensures { OnOk result (out.new.items ≡ with_branch out.old.items state letter (Some branch)) }
{
    let (next, label) = branch;
    put_field(out, b"", state)?;
    put_field(out, b" ", letter)?;
    put_field(out, b" ", next)?;
    put_line(out, b" ", label)
}

// The branches of one state, in the order of the letters.
fn put_state<T: Trellis>(out: &mut Vec<u8>, trellis: &T, state: usize) -> Result<(), AllocError>
    ensures { OnOk result (out.new.items ≡ with_state (T.Trellis.meaning trellis.now) out.old.items state (T.Trellis.meaning trellis.now).letters) }
{
    for letter in 0..trellis.letters() {
        if let Some(branch) = trellis.branch(state, letter) {
            put_branch(out, state, letter, branch)?;
        }
    }
    Ok(())
}

// All the branches, in the order of the states.
fn put_states<T: Trellis>(out: &mut Vec<u8>, trellis: &T) -> Result<(), AllocError>
    ensures { OnOk result (out.new.items ≡ with_states (T.Trellis.meaning trellis.now) out.old.items (T.Trellis.meaning trellis.now).states) }
{
    for state in 0..trellis.states() {
        put_state(out, trellis, state)?;
    }
    Ok(())
}

// The listing of a setup, or want of memory.
pub fn setup_text(heap: Global, setup: &Setup) -> Result<Vec<u8>, AllocError>
    ensures { IfOk result (λ v. v.items ≡ listing setup.now) }
{
    let channel = Channel::new(&setup.trellis);
    let mut out = Vec::new(heap);
    put_sizes(&mut out, &channel)?;
    put_measure(&mut out, setup.measure)?;
    put_line_or(&mut out, b"start ", setup.start, b"any")?;
    put_line_or(&mut out, b"end ", setup.end, b"any")?;
    put_states(&mut out, &channel)?;
    Ok(out)
}

// The text of what a description gives, in `Ok` where it is accepted and in `Err` where it is refused; or want of memory.
pub fn describe_text(
    heap: Global,
    description: &[u8],
) -> Result<Result<Vec<u8>, Vec<u8>>, AllocError>
    ensures text { IfOk result (λ r. (either r).items ≡ described_text (described 0 description.now)) }
    ensures accepted { IfOk result (λ r. is_ok r ≡ is_ok (described 0 description.now)) }
{
    match read_description(description, 0) {
        Ok(setup) => Ok(Ok(setup_text(heap, &setup)?)),
        Err(fault) => Ok(Err(fault_text(heap, &fault)?)),
    }
}
