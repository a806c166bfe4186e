// What the survivor pass says over all permitted ends.
ghost use Rattle.std.specs.Prelude.{◌≡◌, ◌^◌, ◌≤◌, take};
ghost use Rattle.model.specs.Trellises.{most_states};
ghost use Rattle.algebras.specs.CostCounts.{cheapest_with_count};
ghost use Rattle.algebras.specs.TwoCosts.{two_cheapest};
ghost use Rattle.survivors.specs.Choices.{most_samples, TableOf};
ghost use Rattle.survivors.specs.Ranks.{tied, two, Sound, Sounds, gathered};
ghost use Rattle.survivors.specs.Traces.{StandsAt};

use crate::choices::{fill, rank_costs};
use crate::costs::as_cost;
use crate::ends::ending;
use crate::layout::{MOST_STATES, TABLE_SIZE};
use crate::rank::Rank;
use crate::ranks::{NOWHERE, join};
use crate::standing::Standing;
use model::measure::Measure;
use model::trellis::Trellis;
use paths::anchor::is_permitted;

// The ranks of the first n states that the end permits, as one. A loop, since they are joined in place.
fn gather(row: &[Rank; MOST_STATES], n: usize, end: Option<usize>) -> Rank
    requires few { n ≤ most_states }
    requires sounds { Sounds (2 ^ 61) row.now }
    ensures tied { tied result ≡ gathered cheapest_with_count tied end row.now n }
    ensures two { two result ≡ gathered two_cheapest two end row.now n }
    ensures sound { Sound (2 ^ 62) result }
{
    let mut all = NOWHERE;
    for (state, rank) in row[..n].iter().enumerate() {
        if is_permitted(end, state) {
            join(&mut all, *rank, 0);
        }
    }
    all
}

// Fills a table with the chosen branches: the byte of a step and a state, 0 where no path arrives there and where there
// is no such sample or state. Answers in the same pass where the first of the cheapest admissible paths ends, what it
// costs, how many cost as little, and the least cost of the others; nothing where there is no admissible path. A start
// that is no state permits no path, and only the first 512 samples count.
pub fn survey<T: Trellis, M: Measure>(
    trellis: &T,
    measure: &M,
    samples: &[i16],
    start: Option<usize>,
    end: Option<usize>,
    choices: &mut [u8; TABLE_SIZE],
) -> Option<Standing>
    ensures table { TableOf (T.Trellis.meaning trellis.now) (M.Measure.costs measure.now) start (take most_samples samples.now) choices.new }
    ensures standing { StandsAt (T.Trellis.meaning trellis.now) (M.Measure.costs measure.now) start end (take most_samples samples.now) result }
{
    let row = fill(trellis, measure, samples, start, choices);
    let all = gather(&row, trellis.states(), end);
    let first = ending(trellis, &rank_costs(&row), end)?;
    Some(Standing {
        last: first.last,
        cost: first.cost,
        ties: all.count,
        second: as_cost(all.second),
    })
}
