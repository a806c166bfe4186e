// The last state of the cheapest path, over all permitted ends.
ghost use Rattle.std.specs.Prelude.{◌≡◌, ◌≤◌, length};
ghost use Rattle.std.specs.Option.{option_map};
ghost use Rattle.survivors.specs.Survivors.{pick, scan, at_end};
ghost use Rattle.survivors.specs.Rows.{held};
ghost use Rattle.survivors.specs.Traces.{cost_and_last, Ends};

use crate::ending::Ending;
use crate::layout::MOST_STATES;
use model::trellis::Trellis;
use paths::anchor::is_permitted;

// The cheaper of two, and the one met first where they are equal.
fn better(best: Option<Ending>, last: usize, cost: Option<u64>) -> Option<Ending>
    ensures { option_map cost_and_last result ≡ pick (option_map cost_and_last best) last cost }
{
    match cost {
        Some(cost) if best.is_none_or(|least| cost < least.cost) => Some(Ending { last, cost }),
        _ => best,
    }
}

// The least cost of a permitted last state among the first n, and the first state that has it. A loop, as the total of a
// row of weights is: a filter and a fold say no more.
fn cheapest(row: &[Option<u64>], n: usize, end: Option<usize>) -> Option<Ending>
    requires { n ≤ length row.now }
    ensures { option_map cost_and_last result ≡ scan (at_end end (held row.now)) n }
{
    let mut best = None;
    for (state, cost) in row[..n].iter().enumerate() {
        if is_permitted(end, state) {
            best = better(best, state, *cost);
        }
    }
    best
}

// Where the first of the cheapest paths over all permitted ends ends, from what those to each state cost: the
// permitted state of the least cost, the lowest among equals; nothing where no path arrives at one.
pub fn ending<T: Trellis>(
    trellis: &T,
    row: &[Option<u64>; MOST_STATES],
    end: Option<usize>,
) -> Option<Ending>
    ensures { Ends (T.Trellis.meaning trellis.now) end row.now result }
{
    cheapest(row, trellis.states(), end)
}
