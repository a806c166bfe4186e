// The lines that are held while a description is read.
ghost use Rattle.std.specs.Prelude.{◌≡◌, [], length, take, drop, if◌then◌else◌, Some, None, nat_lt, is_some, OnOk, IfErr};
ghost use Rattle.std.specs.Result.{is_err};
ghost use Rattle.lines.specs.Forms.{line_form};
ghost use Rattle.model.specs.Refusals.{outcome, refused};
ghost use Rattle.setups.specs.Texts.{lines_of};
ghost use Rattle.setups.specs.Setups.{held_trellis, held_setup};
ghost use Rattle.setups.specs.Lines.{gathered, gathered_from, is_held, with_line, line_fault, read_lines};

use crate::setup::{Setup, TrellisSetup};
use lines::form::{CodeLine, Line, MeasureLine, RllLine, TapsLine, line_from};
use lines::lexer::index_of;
use model::refusal::{Fault, Layer, Refusal};

// A line's content, and the place where the line begins.
#[derive(Clone, Copy)]
pub struct Placed<T> {
    pub line: T,
    pub place: usize,
}

// At most one line of each form.
#[derive(Clone, Copy, Default)]
pub struct HeldLines {
    pub code: Option<Placed<CodeLine>>,
    pub rll: Option<Placed<RllLine>>,
    pub taps: Option<Placed<TapsLine>>,
    pub measure: Option<Placed<MeasureLine>>,
    pub start: Option<Placed<Option<i32>>>,
    pub end: Option<Placed<Option<i32>>>,
}

// Holds a line of one form, or refuses it where one is held.
fn hold<T: Copy>(held: &mut Option<Placed<T>>, line: T, place: usize) -> Result<(), Fault>
    ensures repeated { is_err result ≡ is_some held.old }
    ensures fault { IfErr result (λ f. refused f ≡ line_fault Refusal.LineRepeated place) }
    ensures held { OnOk result (held.new ≡ Some (record { line = line; place = place })) }
{
    if held.is_some() {
        return Err(Refusal::LineRepeated.at(Layer::Lines, place));
    }
    *held = Some(Placed { line, place });
    Ok(())
}

impl HeldLines {
    pub fn new() -> HeldLines
        ensures { result ≡ gathered [] }
    {
        HeldLines::default()
    }

    // Holds a line in the place of its form, or refuses it where a line with its first word is held.
    fn hold(&mut self, line: Line, place: usize) -> Result<(), Fault>
        ensures repeated { is_err result ≡ is_held self.old line }
        ensures fault { IfErr result (λ f. refused f ≡ line_fault Refusal.LineRepeated place) }
        ensures held { OnOk result (self.new ≡ with_line self.old line place) }
    {
        match line {
            Line::Code(line) => hold(&mut self.code, line, place),
            Line::Rll(line) => hold(&mut self.rll, line, place),
            Line::Taps(line) => hold(&mut self.taps, line, place),
            Line::Measure(line) => hold(&mut self.measure, line, place),
            Line::Start(line) => hold(&mut self.start, line, place),
            Line::End(line) => hold(&mut self.end, line, place),
        }
    }

    // The kind of trellis that the lines are an accepted set for.
    fn trellis(&self) -> Option<TrellisSetup>
        ensures { result ≡ held_trellis self.now }
    {
        match (self.code, self.rll, self.taps) {
            (None, None, Some(taps)) => Some(TrellisSetup::Taps(taps.line)),
            (Some(code), None, None) => Some(TrellisSetup::Code(code.line)),
            (Some(code), None, Some(taps)) => Some(TrellisSetup::CodeOverTaps(
                code.line, taps.line,
            )),
            (None, Some(rll), Some(taps)) => Some(TrellisSetup::RllOverTaps(rll.line, taps.line)),
            _ => None,
        }
    }

    // The setup, or nothing where the lines are no accepted set.
    pub fn setup(&self) -> Option<Setup>
        ensures { result ≡ held_setup self.now }
    {
        Some(Setup {
            trellis: self.trellis()?,
            measure: self.measure?.line,
            start: self.start?.line,
            end: self.end?.line,
        })
    }
}

// What the line says that begins at a place and is ended at another, if it is ended.
fn line_at(text: &[u8], place: usize, end: usize) -> Option<Line>
    ensures { result ≡ (if nat_lt end (length text.now) then line_form (drop place (take end text.now)) else None) }
{
    if end >= text.len() {
        return None;
    }
    line_from(&text[..end], place)
}

// The lines of a text, from a place in it on, or the first fault.
pub fn read_lines(text: &[u8], from: usize) -> Result<HeldLines, Fault>
    ensures { outcome result ≡ gathered_from (read_lines from [] (lines_of (drop from text.now))) }
{
    let mut held = HeldLines::new();
    // The place is kept by the loop, since a fault names it: an iterator of lines would only hold the same place.
    let mut at = from;
    while at < text.len() {
        let end = index_of(text, at, b'\n');
        let line = line_at(text, at, end).ok_or(Refusal::LineForm.at(Layer::Lines, at))?;
        held.hold(line, at)?;
        at = end + 1;
    }
    Ok(held)
}
