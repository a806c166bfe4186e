// The survivor pass over all samples.
ghost use Rattle.std.specs.Prelude.{◌≡◌, ℕ, ◌*◌, ◌≤◌, length, map, take, replicate, None, slice_index, slice_index_or};
ghost use Rattle.std.specs.List.{AllByRecursion, range_with_len};
ghost use Rattle.model.specs.Ranges.{InRange};
ghost use Rattle.model.specs.Trellises.{most_states};
ghost use Rattle.survivors.specs.Choices.{most_samples, TableOf, CostsOf};
ghost use Rattle.survivors.specs.Reaches.{as_cost};
ghost use Rattle.survivors.specs.Ranks.{opening_below, Ranked, ClearPast};
ghost use Rattle.survivors.specs.Rows.{Zeros, Tabled};

use crate::costs::as_cost;
use crate::layout::{MOST_SAMPLES, MOST_STATES, TABLE_SIZE, place_of};
use crate::rank::Rank;
use crate::ranks::{NOWHERE, advance_ranks};
use model::measure::Measure;
use model::trellis::Trellis;
use paths::anchor::is_permitted;
use paths::branches::list_branches;
use std::array;

// The rank of a state before any sample: one path without steps to a permitted start among the first n states, and none to
// any other.
fn opening_below(n: usize, start: Option<usize>, state: usize) -> Rank
    ensures { result ≡ opening_below n start state }
{
    if state < n && is_permitted(start, state) {
        Rank {
            cost: 0,
            count: 1,
            ..NOWHERE
        }
    } else {
        NOWHERE
    }
}

// That of each state.
fn open_ranks(n: usize, start: Option<usize>) -> [Rank; MOST_STATES]
    ensures { result ≡ map (opening_below n start) (range_with_len 0 most_states) }
{
    array::from_fn(|state| opening_below(n, start, state))
}

// Makes every byte 0.
fn clear_bytes(bytes: &mut [u8])
    ensures { bytes.new ≡ replicate (length bytes.old) 0 }
{
    bytes.fill(0);
}

// The samples that a table has room for.
#[tactic(auto, using(std::proofs::lemmas::List::take_min))]
fn counted(samples: &[i16]) -> &[i16]
    ensures { result.now ≡ take most_samples samples.now }
{
    &samples[..MOST_SAMPLES.min(samples.len())]
}

// The bytes of all steps into a table of zeros; answers the ranks after the last step.
fn rank_all<T: Trellis, M: Measure>(
    trellis: &T,
    measure: &M,
    samples: &[i16],
    start: Option<usize>,
    choices: &mut [u8],
) -> [Rank; MOST_STATES]
    requires few { length samples.now ≤ most_samples }
    requires room { length samples.now * most_states ≤ length choices.old }
    requires zeros { Zeros choices.old }
    ensures ranked { Ranked (T.Trellis.meaning trellis.now) (M.Measure.costs measure.now) start samples.now result }
    ensures past { ClearPast (T.Trellis.meaning trellis.now).states result }
    ensures range { AllByRecursion InRange samples.now }
    ensures table { Tabled (T.Trellis.meaning trellis.now) (M.Measure.costs measure.now) start samples.now (length samples.now) choices.new }
    ensures rest { (i : ℕ) → length samples.now * most_states ≤ i → slice_index choices.new i ≡ 0 }
{
    let list = list_branches(trellis);
    let branches = list.as_slice();
    let n = trellis.states();
    let clear = [NOWHERE; MOST_STATES];
    let mut row = open_ranks(n, start);
    let mut next = clear;
    // By place: of bytes written through chunks_exact_mut a proof would know only how many there are.
    for (k, sample) in samples.iter().enumerate() {
        let from = place_of(k, 0);
        advance_ranks(
            branches,
            measure,
            *sample,
            n,
            &clear,
            &mut row,
            &mut next,
            &mut choices[from..from + MOST_STATES],
        );
    }
    row
}

// Fills a table, whatever it held before; answers the ranks after the samples that count.
pub(crate) fn fill<T: Trellis, M: Measure>(
    trellis: &T,
    measure: &M,
    samples: &[i16],
    start: Option<usize>,
    choices: &mut [u8; TABLE_SIZE],
) -> [Rank; MOST_STATES]
    ensures table { TableOf (T.Trellis.meaning trellis.now) (M.Measure.costs measure.now) start (take most_samples samples.now) choices.new }
    ensures ranked { Ranked (T.Trellis.meaning trellis.now) (M.Measure.costs measure.now) start (take most_samples samples.now) result }
    ensures past { ClearPast (T.Trellis.meaning trellis.now).states result }
    ensures range { AllByRecursion InRange (take most_samples samples.now) }
{
    clear_bytes(choices);
    rank_all(trellis, measure, counted(samples), start, choices)
}

// The costs of a row; read by place, since map would first copy the row, which was measured slower.
pub(crate) fn rank_costs(row: &[Rank; MOST_STATES]) -> [Option<u64>; MOST_STATES]
    ensures { result ≡ map (λ rank. as_cost rank.cost) row.now }
{
    array::from_fn(|state| as_cost(row[state].cost))
}

// Fills a table with the chosen branches: the byte of a step and a state, 0 where no path arrives there and where
// there is no such sample or state. A start that is no state permits no path, and only the first 512 samples count.
// Answers what the first of the cheapest paths to each state costs on all of them, and nothing for what is no state. What a
// pass reads stays in arguments of their own, as callers of choose and survey hold them.
pub fn choose<T: Trellis, M: Measure>(
    trellis: &T,
    measure: &M,
    samples: &[i16],
    start: Option<usize>,
    choices: &mut [u8; TABLE_SIZE],
) -> [Option<u64>; MOST_STATES]
    ensures table { TableOf (T.Trellis.meaning trellis.now) (M.Measure.costs measure.now) start (take most_samples samples.now) choices.new }
    ensures row { CostsOf (T.Trellis.meaning trellis.now) (M.Measure.costs measure.now) start (take most_samples samples.now) result }
    ensures past { (s : ℕ) → (T.Trellis.meaning trellis.now).states ≤ s → slice_index_or result s None ≡ None }
{
    rank_costs(&fill(trellis, measure, samples, start, choices))
}
