// The six forms of a line.
ghost use Rattle.std.specs.Prelude.{◌≡◌, drop};
ghost use Rattle.std.specs.Option.{option_map};
ghost use Rattle.lines.specs.Lexers.{pending};
ghost use Rattle.lines.specs.Forms.{none_left, line_byte, line_bytes, bare_ends, well_spaced, code_form, rll_form, taps_form, measure_form, anchor_in, anchor_form, form_of, line_form};

use crate::lexer::Lexer;
use crate::list::{NumberList, all_numbers, next_number};
use crate::number::{Radix, number_of};

// `code K V G1 ..`
#[derive(Clone, Copy)]
pub struct CodeLine {
    pub constraint_length: i32,
    pub inversion: i32,
    pub generators: NumberList,
}

// `rll d k`
#[derive(Clone, Copy)]
pub struct RllLine {
    pub d: i32,
    pub k: i32,
}

// `taps A h0 ..`
#[derive(Clone, Copy)]
pub struct TapsLine {
    pub letters: i32,
    pub taps: NumberList,
}

// `measure square` or `measure bits w`
#[derive(Clone, Copy)]
pub enum MeasureLine {
    Square,
    Bits(i32),
}

// A line of a description. A start or an end that is absent is any state.
#[derive(Clone, Copy)]
pub enum Line {
    Code(CodeLine),
    Rll(RllLine),
    Taps(TapsLine),
    Measure(MeasureLine),
    Start(Option<i32>),
    End(Option<i32>),
}

// Whether the lexer has no word left.
fn at_end(words: &mut Lexer) -> bool
    ensures { result ≡ none_left (pending words.old) }
{
    words.next_word().is_none()
}

fn code_line(words: &mut Lexer) -> Option<Line>
    ensures { result ≡ code_form (pending words.old) }
{
    let constraint_length = next_number(words, Radix::Decimal)?;
    let inversion = next_number(words, Radix::Decimal)?;
    let generators = all_numbers(words, Radix::Octal)?;
    Some(Line::Code(CodeLine {
        constraint_length,
        inversion,
        generators,
    }))
}

fn rll_line(words: &mut Lexer) -> Option<Line>
    ensures { result ≡ rll_form (pending words.old) }
{
    let d = next_number(words, Radix::Decimal)?;
    let k = next_number(words, Radix::Decimal)?;
    at_end(words).then_some(Line::Rll(RllLine { d, k }))
}

fn taps_line(words: &mut Lexer) -> Option<Line>
    ensures { result ≡ taps_form (pending words.old) }
{
    let letters = next_number(words, Radix::Decimal)?;
    let taps = all_numbers(words, Radix::Decimal)?;
    Some(Line::Taps(TapsLine { letters, taps }))
}

fn measure_line(words: &mut Lexer) -> Option<Line>
    ensures { result ≡ measure_form (pending words.old) }
{
    let measure = match words.next_word()?.bytes() {
        b"square" => MeasureLine::Square,
        b"bits" => MeasureLine::Bits(next_number(words, Radix::Decimal)?),
        _ => return None,
    };
    at_end(words).then_some(Line::Measure(measure))
}

// The state that a word of a start or an end names, or any.
fn anchor(word: &[u8]) -> Option<Option<i32>>
    ensures { result ≡ anchor_in word.now }
{
    match word {
        b"any" => Some(None),
        number => Some(Some(number_of(Radix::Decimal, number)?)),
    }
}

// The state at which a start or an end stands, or any.
fn anchor_state(words: &mut Lexer) -> Option<Option<i32>>
    ensures { result ≡ anchor_form (pending words.old) }
{
    let state = anchor(words.next_word()?.bytes())?;
    at_end(words).then_some(state)
}

// The form that the first word names.
fn form(words: &mut Lexer) -> Option<Line>
    ensures { result ≡ form_of (pending words.old) }
{
    match words.next_word()?.bytes() {
        b"code" => code_line(words),
        b"rll" => rll_line(words),
        b"taps" => taps_line(words),
        b"measure" => measure_line(words),
        b"start" => Some(Line::Start(anchor_state(words)?)),
        b"end" => Some(Line::End(anchor_state(words)?)),
        _ => None,
    }
}

fn is_line_byte(b: u8) -> bool
    ensures { result ≡ line_byte b }
{
    matches!(b, b'a'..=b'z' | b'0'..=b'9' | b'-' | b' ')
}

fn has_line_bytes(line: &[u8]) -> bool
    ensures { result ≡ line_bytes line.now }
{
    line.iter().all(|b| is_line_byte(*b))
}

// Whether a line has bytes, and no space at either end.
fn has_bare_ends(line: &[u8]) -> bool
    ensures { result ≡ bare_ends line.now }
{
    !matches!(line, [] | [b' ', ..] | [.., b' '])
}

// Whether a line is words parted by spaces, with no space at either end.
fn is_well_spaced(line: &[u8]) -> bool
    ensures { result ≡ well_spaced line.now }
{
    has_bare_ends(line) && has_line_bytes(line)
}

// The line that begins at a place of the text and goes to its end, or nothing where it has none of the forms.
pub fn line_from(text: &[u8], from: usize) -> Option<Line>
    ensures { result ≡ line_form (drop from text.now) }
{
    if !is_well_spaced(text.get(from..)?) {
        return None;
    }
    form(&mut Lexer::new(text, from))
}
