// The report of a settled record: the first of the cheapest admissible paths on what it holds.
ghost use Rattle.std.specs.Prelude.{◌≡◌};
ghost use Rattle.std.specs.Option.{ok_or};
ghost use Rattle.std.specs.Result.{result_ok};
ghost use Rattle.model.specs.declared.refusal.Refusal.TheVariants.{NoPath};
ghost use Rattle.model.specs.Refusals.{answer};
ghost use Rattle.survivors.specs.Choices.{TableOf};
ghost use Rattle.records.specs.Asked.{path_in, room_in, report_in};
ghost use Rattle.records.specs.Reports.{has_room, path_check, if_reported, written, AnswersReport};

use crate::report::Report;
use crate::settled::Settled;
use model::measure::Measure;
use model::refusal::Refusal;
use model::trellis::Trellis;
use survivors::standing::Standing;
use survivors::traceback::trace;

// Whether so many letters have room from a place on in a buffer of this length.
fn is_room(letters: usize, place: usize, buffer: usize) -> bool
    ensures { result ≡ has_room letters place buffer }
{
    place <= buffer && letters <= buffer - place
}

// Where the reported path stands, or the refusal where there is none.
fn path_standing(standing: Option<Standing>) -> Result<Standing, Refusal>
    ensures checked { result ≡ ok_or standing NoPath }
    ensures value { standing ≡ result_ok result }
{
    standing.ok_or(Refusal::NoPath)
}

impl<T: Trellis, M: Measure> Settled<T, M> {
    // Writes the letters of the reported path into the buffer, from the place on and nothing elsewhere, and answers the
    // rest of the report.
    pub fn report(&self, buffer: &mut [u8], place: usize) -> Result<Report, Refusal>
        ensures value { result_ok result ≡ if_reported (path_in T.Trellis.meaning M.Measure.costs self.now.seen) (room_in self.now.seen place buffer.old) (report_in T.Trellis.meaning M.Measure.costs self.now.seen) }
        ensures checked { answer result ≡ path_check (path_in T.Trellis.meaning M.Measure.costs self.now.seen) (room_in self.now.seen place buffer.old) }
        ensures buffer { buffer.new ≡ written (path_in T.Trellis.meaning M.Measure.costs self.now.seen) (room_in self.now.seen place buffer.old) place buffer.old }
        ensures chosen { TableOf (T.Trellis.meaning self.now.seen.trellis) (M.Measure.costs self.now.seen.measure) self.now.seen.held.start self.now.seen.held.samples self.now.choices }
        ensures law { AnswersReport (T.Trellis.meaning self.now.seen.trellis) (M.Measure.costs self.now.seen.measure) self.now.seen.held place result buffer.old buffer.new }
    {
        let standing = path_standing(self.standing)?;
        let held = self.table.samples.len();
        if !is_room(held, place, buffer.len()) {
            return Err(Refusal::BufferShort);
        }
        let first = trace(
            &self.table.choices,
            standing.last,
            &mut buffer[place..place + held],
        )
        .unwrap();
        Ok(Report::new(standing, first))
    }
}
