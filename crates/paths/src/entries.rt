// The entries of a row, one for each state: what the methods of a row do with the slice.
ghost use Rattle.std.specs.Prelude.{◌≡◌, ◌<◌, ◌≤◌, length, if◌then◌else◌, slice_index_or, slice_set};
ghost use Rattle.std.specs.List.{AllByRecursion};
ghost use Rattle.paths.specs.Paths.{permits};
ghost use Rattle.paths.specs.Listings.{below};
ghost use Rattle.paths.specs.Sums.{total};
ghost use Rattle.paths.specs.Rows.{Entries, Copied};
ghost use Rattle.paths.specs.Branches.{Within};
ghost use Rattle.paths.specs.Recursion.{opened};
ghost use Rattle.paths.specs.FlatRecursion.{with_branches};

use crate::anchor::is_permitted;
use crate::branch::ListedBranch;
use algebras::algebra::Algebra;
use model::measure::Measure;

// Makes each of the first n entries zero; `fill` would ask for a clone that cannot fail, which `Copy` does not promise.
pub(crate) fn clear_entries<W: Copy>(row: &mut [W], n: usize, zero: W)
    requires { n ≤ length row.old }
    ensures { Entries n (λ _. zero) row.old row.new }
{
    for entry in row[..n].iter_mut() {
        *entry = zero;
    }
}

// Makes each of the first n entries one where the start permits the state, and zero elsewhere.
pub(crate) fn open_entries<A: Algebra>(
    algebra: &A,
    row: &mut [A::Weight],
    n: usize,
    start: Option<usize>,
)
    requires { n ≤ length row.old }
    ensures { Entries n (opened A.Algebra.semiring start) row.old row.new }
{
    for (s, entry) in row[..n].iter_mut().enumerate() {
        *entry = if is_permitted(start, s) {
            algebra.one()
        } else {
            algebra.zero()
        };
    }
}

// Copies the first n entries of another row.
pub(crate) fn copy_entries<W: Copy>(row: &mut [W], from: &[W], n: usize)
    requires row { n ≤ length row.old }
    requires from { n ≤ length from.now }
    ensures { Copied n from.now row.old row.new }
{
    row[..n].copy_from_slice(&from[..n]);
}

// Adds a weight at a state.
fn add_at<A: Algebra>(algebra: &A, row: &mut [A::Weight], state: usize, weight: A::Weight)
    requires { state < length row.old }
    ensures { row.new ≡ slice_set row.old state (A.Algebra.semiring.plus (slice_index_or row.old state A.Algebra.semiring.zero) weight) }
{
    row[state] = algebra.plus(row[state], weight);
}

// Adds to the entries what the branches bring of the weights in another row, on one sample. What a pass holds comes in
// parts, since a row hands its slice to functions that know of slices alone.
pub(crate) fn extend_entries<M: Measure, A: Algebra>(
    branches: &[ListedBranch],
    measure: &M,
    algebra: &A,
    sample: i16,
    from: &[A::Weight],
    row: &mut [A::Weight],
)
    requires { AllByRecursion (Within (length from.now) (length row.old)) branches.now }
    ensures { row.new ≡ with_branches (M.Measure.costs measure.now) A.Algebra.semiring sample (λ s. slice_index_or from.now s A.Algebra.semiring.zero) row.old branches.now }
{
    for branch in branches {
        let cost = algebra.weight(measure.cost(branch.label, sample));
        let weight = algebra.times(from[branch.from as usize], cost);
        add_at(algebra, row, branch.next as usize, weight);
    }
}

// The sum of those of the first n entries that the end permits; a `fold` after a `filter` is no plainer than the loop.
pub(crate) fn total_entries<A: Algebra>(
    algebra: &A,
    row: &[A::Weight],
    n: usize,
    end: Option<usize>,
) -> A::Weight
    requires { n ≤ length row.now }
    ensures { result ≡ total A.Algebra.semiring (λ s. (if permits end s then slice_index_or row.now s A.Algebra.semiring.zero else A.Algebra.semiring.zero)) (below n) }
{
    let mut sum = algebra.zero();
    for (s, weight) in row[..n].iter().enumerate() {
        if is_permitted(end, s) {
            sum = algebra.plus(sum, *weight);
        }
    }
    sum
}
