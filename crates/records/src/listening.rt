// A record that takes samples.
ghost use Rattle.std.specs.Prelude.{◌≡◌, ◌≤◌, length, if◌then◌else◌, Some, None, OnErr};
ghost use Rattle.std.specs.Result.{result_ok};
ghost use Rattle.model.specs.declared.refusal.Refusal.TheVariants.{NotAState};
ghost use Rattle.model.specs.Refusals.{refusal_number, answer};
ghost use Rattle.records.specs.Held.{Held, new_held, is_named, named, both_named, named_check, anchor_check, anchored, take_check, taken, rewind_check, rewound};
ghost use Rattle.survivors.specs.Choices.{most_samples};
ghost use Rattle.records.specs.Seen.{with_held, new_record};

use crate::table::Table;
use arrays::list::FixedList;
use model::measure::Measure;
use model::refusal::Refusal;
use model::trellis::{Trellis, state_named};
use std::marker::Model;
use survivors::layout::TABLE_SIZE;

#[derive(Drop)]
pub struct Listening<T: Trellis, M: Measure> {
    pub(crate) trellis: T,
    pub(crate) measure: M,
    pub(crate) table: Table,
}

impl<T: Trellis, M: Measure> Model for Listening<T, M> {
    ghost use Rattle.records.specs.Seen.{Shown};

    ghost Value = { Shown T M };

    ghost use Rattle.records.specs.Tables.{held_of};

    ghost view = { λ l. record { seen = record { trellis = l.trellis; measure = l.measure; held = held_of l.table }; choices = l.table.choices; memory = l.table.samples } };
}

// The state that a number names, if there is a number.
fn anchor_named<T: Trellis>(trellis: &T, number: Option<i32>) -> Result<Option<usize>, Refusal>
    ensures value { result_ok result ≡ (if is_named (T.Trellis.meaning trellis.now) number then Some (named (T.Trellis.meaning trellis.now) number) else None) }
    ensures checked { answer result ≡ (if is_named (T.Trellis.meaning trellis.now) number then 0 else refusal_number NotAState) }
{
    number
        .map(|number| state_named(trellis, number))
        .transpose()
}

// The states that two such numbers name.
fn both_named<T: Trellis>(
    trellis: &T,
    start: Option<i32>,
    end: Option<i32>,
) -> Result<(Option<usize>, Option<usize>), Refusal>
    ensures value { result_ok result ≡ both_named (T.Trellis.meaning trellis.now) start end }
    ensures checked { answer result ≡ named_check (T.Trellis.meaning trellis.now) start end }
{
    let first = anchor_named(trellis, start)?;
    let last = anchor_named(trellis, end)?;
    Ok((first, last))
}

impl<T: Trellis, M: Measure> Listening<T, M> {
    // A new record: from state 0 to any state, and no samples.
    pub fn new(trellis: T, measure: M) -> Listening<T, M>
        ensures { result.seen ≡ new_record trellis measure }
    {
        let table = Table {
            start: Some(0),
            end: None,
            samples: FixedList::new(0),
            choices: [0; TABLE_SIZE],
        };
        Listening {
            trellis,
            measure,
            table,
        }
    }

    // How many samples are held. A question, which changes nothing.
    pub fn held(&self) -> usize
        ensures value { result ≡ length self.now.seen.held.samples }
        ensures within { length self.now.seen.held.samples ≤ most_samples }
    {
        self.table.samples.len()
    }

    // Sets start and end, each the number of a state or left out, which permits any. Only before the first sample.
    pub fn anchor(&mut self, start: Option<i32>, end: Option<i32>) -> Result<(), Refusal>
        ensures checked { answer result ≡ anchor_check (T.Trellis.meaning self.old.seen.trellis) self.old.seen.held start end }
        ensures after { self.new.seen ≡ with_held self.old.seen (anchored (T.Trellis.meaning self.old.seen.trellis) self.old.seen.held start end) }
        ensures unchanged { OnErr result (self.new ≡ self.old) }
    {
        if !self.table.samples.is_empty() {
            return Err(Refusal::SamplesHeld);
        }
        let (first, last) = both_named(&self.trellis, start, end)?;
        self.table.start = first;
        self.table.end = last;
        Ok(())
    }

    // Adds a sample at the end.
    pub fn take(&mut self, sample: i16) -> Result<(), Refusal>
        ensures checked { answer result ≡ take_check self.old.seen.held }
        ensures after { self.new.seen ≡ with_held self.old.seen (taken self.old.seen.held sample) }
        ensures unchanged { OnErr result (self.new ≡ self.old) }
    {
        let samples = &mut self.table.samples;
        samples.push(sample).map_err(|_| Refusal::RecordFull)
    }

    // Keeps the first n samples.
    pub fn rewind(&mut self, n: usize) -> Result<(), Refusal>
        ensures checked { answer result ≡ rewind_check self.old.seen.held n }
        ensures after { self.new.seen ≡ with_held self.old.seen (rewound self.old.seen.held n) }
        ensures unchanged { OnErr result (self.new ≡ self.old) }
    {
        if n > self.table.samples.len() {
            return Err(Refusal::RewindBeyond);
        }
        self.table.samples.truncate(n);
        Ok(())
    }
}
