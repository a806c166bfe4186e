// The text of what a recording gives: its outcome, or its fault.
ghost use Rattle.std.specs.Prelude.{◌≡◌, replicate, is_ok, IfOk, OnOk};
ghost use Rattle.listings.specs.Listings.{either};
ghost use Rattle.recordings.specs.Recordings.{recording as recorded};
ghost use Rattle.outcomes.specs.Outcomes.{with_digits, with_letters, outcome_text, detected_text};

use listings::text::{fault_text, put, put_line, put_line_or, put_number};
use recordings::outcome::Outcome;
use recordings::reader::read_recording;
use std::alloc::{AllocError, Global};

// The most letters that a recording gives.
const MOST_LETTERS: usize = 512;

// Each letter in figures, with nothing between.
fn put_digits(out: &mut Vec<u8>, letters: &[u8]) -> Result<(), AllocError>
    ensures { OnOk result (out.new.items ≡ with_digits out.old.items letters.now) }
{
    for letter in letters {
        put_number(out, *letter)?;
    }
    Ok(())
}

// The line of the letters, which ends after its name where there are none.
fn put_letters(out: &mut Vec<u8>, letters: &[u8]) -> Result<(), AllocError>
    ensures { OnOk result (out.new.items ≡ with_letters out.old.items letters.now) }
{
    put(out, b"letters")?;
    if !letters.is_empty() {
        put(out, b" ")?;
        put_digits(out, letters)?;
    }
    put(out, b"\n")
}

// The lines of an outcome and its letters.
pub fn outcome_lines(heap: Global, outcome: &Outcome, letters: &[u8]) -> Result<Vec<u8>, AllocError>
    ensures { IfOk result (λ v. v.items ≡ outcome_text outcome.now letters.now) }
{
    let mut out = Vec::new(heap);
    let report = outcome.report;
    put_line(&mut out, b"samples ", outcome.samples)?;
    put_line(&mut out, b"paths ", outcome.paths)?;
    put_line(&mut out, b"cost ", report.cost)?;
    put_line(&mut out, b"ties ", report.ties)?;
    put_line_or(&mut out, b"second ", report.second, b"none")?;
    put_line(&mut out, b"start ", report.first)?;
    put_line(&mut out, b"end ", report.last)?;
    put_letters(&mut out, letters)?;
    Ok(out)
}

// The text of what a recording gives, in `Ok` where it is accepted and in `Err` where it is refused; or want of memory.
pub fn detect_text(heap: Global, recording: &[u8]) -> Result<Result<Vec<u8>, Vec<u8>>, AllocError>
    ensures text { IfOk result (λ r. (either r).items ≡ detected_text (recorded recording.now 0 512)) }
    ensures accepted { IfOk result (λ r. is_ok r ≡ is_ok (recorded recording.now 0 512)) }
{
    let mut letters = [0; MOST_LETTERS];
    match read_recording(recording, &mut letters, 0) {
        Ok(outcome) => {
            let held = outcome.samples.min(MOST_LETTERS);
            Ok(Ok(outcome_lines(heap, &outcome, &letters[..held])?))
        },
        Err(fault) => Ok(Err(fault_text(heap, &fault)?)),
    }
}
