// A row of weights, one for each state, in a slice that the caller lends.
ghost use Rattle.std.specs.Prelude.{◌≡◌, ◌<◌, ◌≤◌, length, if◌then◌else◌, slice_index_or};
ghost use Rattle.std.specs.List.{AllByRecursion};
ghost use Rattle.paths.specs.Paths.{permits};
ghost use Rattle.paths.specs.Listings.{below};
ghost use Rattle.paths.specs.Sums.{total};
ghost use Rattle.paths.specs.Rows.{Entries, Copied, SameSlice};
ghost use Rattle.paths.specs.Branches.{Within};
ghost use Rattle.paths.specs.Recursion.{opened};
ghost use Rattle.paths.specs.FlatRecursion.{with_branches};

use crate::branch::ListedBranch;
use crate::entries::{clear_entries, copy_entries, extend_entries, open_entries, total_entries};
use algebras::algebra::Algebra;
use model::measure::Measure;

// Its methods hand the slice to functions of entries, which say what happens to it in a plain slice's terms.
#[derive(Drop)]
pub(crate) struct Row<'a, W> {
    pub(crate) weights: &'a mut [W],
}

impl<'a, W: Copy> Row<'a, W> {
    // Makes the first n entries zero.
    pub(crate) fn clear(&mut self, n: usize, zero: W)
        requires { n ≤ length self.old.weights.now }
        ensures after { Entries n (λ _. zero) self.old.weights.now self.new.weights.now }
        ensures slice { SameSlice self.old.weights self.new.weights }
    {
        clear_entries(self.weights, n, zero);
    }

    // Copies the first n entries of another row.
    pub(crate) fn copy(&mut self, from: &Row<'_, W>, n: usize)
        requires row { n ≤ length self.old.weights.now }
        requires from { n ≤ length from.now.weights.now }
        ensures after { Copied n from.now.weights.now self.old.weights.now self.new.weights.now }
        ensures slice { SameSlice self.old.weights self.new.weights }
    {
        copy_entries(self.weights, from.weights, n);
    }

    // Makes the first n entries what they are before any sample.
    pub(crate) fn open<A: Algebra<Weight = W>>(
        &mut self,
        algebra: &A,
        n: usize,
        start: Option<usize>,
    )
        requires { n ≤ length self.old.weights.now }
        ensures after { Entries n (opened A.Algebra.semiring start) self.old.weights.now self.new.weights.now }
        ensures slice { SameSlice self.old.weights self.new.weights }
    {
        open_entries(algebra, self.weights, n, start);
    }

    // Adds what the branches bring of the weights in another row, on one sample.
    pub(crate) fn extend<M: Measure, A: Algebra<Weight = W>>(
        &mut self,
        branches: &[ListedBranch],
        measure: &M,
        algebra: &A,
        sample: i16,
        from: &Row<'_, W>,
    )
        requires { AllByRecursion (Within (length from.now.weights.now) (length self.old.weights.now)) branches.now }
        ensures after { self.new.weights.now ≡ with_branches (M.Measure.costs measure.now) A.Algebra.semiring sample (λ s. slice_index_or from.now.weights.now s A.Algebra.semiring.zero) self.old.weights.now branches.now }
        ensures slice { SameSlice self.old.weights self.new.weights }
    {
        extend_entries(
            branches,
            measure,
            algebra,
            sample,
            from.weights,
            self.weights,
        );
    }

    // The sum over the permitted ones of the first n states.
    pub(crate) fn total<A: Algebra<Weight = W>>(
        &self,
        algebra: &A,
        n: usize,
        end: Option<usize>,
    ) -> W
        requires { n ≤ length self.now.weights.now }
        ensures { result ≡ total A.Algebra.semiring (λ s. (if permits end s then slice_index_or self.now.weights.now s A.Algebra.semiring.zero else A.Algebra.semiring.zero)) (below n) }
    {
        total_entries(algebra, self.weights, n, end)
    }
}
