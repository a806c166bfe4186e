// A forward pass over a list of the branches, two samples a turn.
ghost use Rattle.std.specs.Prelude.{◌≡◌, ◌≤◌, length, Some, slice_index_or};
ghost use Rattle.paths.specs.Sums.{path_sum};
ghost use Rattle.paths.specs.Laws.{AnyOrder, AnyList};
ghost use Rattle.paths.specs.Rows.{Entries, Copied, SameSlice};
ghost use Rattle.paths.specs.Branches.{branches_of};
ghost use Rattle.paths.specs.Recursion.{stepped, Advanced};

use crate::branch::ListedBranch;
use crate::row::Row;
use algebras::algebra::Algebra;
use model::measure::Measure;
use model::trellis::Trellis;

// What the pass reads at each sample: a trellis with the list of its branches, a measure and an algebra.
#[derive(Drop)]
pub(crate) struct Pass<'a, T: Trellis, M: Measure, A: Algebra> {
    pub(crate) trellis: &'a T,
    pub(crate) measure: &'a M,
    pub(crate) algebra: &'a A,
    pub(crate) branches: &'a [ListedBranch],
    ghost listed: { branches.now ≡ branches_of (T.Trellis.meaning trellis.now) },
}

impl<T: Trellis, M: Measure, A: Algebra> Pass<'_, T, M, A> {
    // Makes the second row what the first is one sample later. The rows are two arguments, since each is read and written in turn.
    fn step(&self, sample: i16, first: &Row<'_, A::Weight>, second: &mut Row<'_, A::Weight>)
        requires first { (T.Trellis.meaning self.now.trellis.now).states ≤ length first.now.weights.now }
        requires second { (T.Trellis.meaning self.now.trellis.now).states ≤ length second.old.weights.now }
        ensures second { Entries (T.Trellis.meaning self.now.trellis.now).states (stepped (T.Trellis.meaning self.now.trellis.now) (M.Measure.costs self.now.measure.now) A.Algebra.semiring sample (λ s. slice_index_or first.now.weights.now s A.Algebra.semiring.zero)) second.old.weights.now second.new.weights.now }
        ensures slice { SameSlice second.old.weights second.new.weights }
    {
        second.clear(self.trellis.states(), self.algebra.zero());
        second.extend(self.branches, self.measure, self.algebra, sample, first);
    }

    // Two samples further, by way of the second row, so that no row is copied.
    fn step_twice(
        &self,
        samples: (i16, i16),
        first: &mut Row<'_, A::Weight>,
        second: &mut Row<'_, A::Weight>,
    )
        requires first { (T.Trellis.meaning self.now.trellis.now).states ≤ length first.old.weights.now }
        requires second { (T.Trellis.meaning self.now.trellis.now).states ≤ length second.old.weights.now }
        ensures second { Entries (T.Trellis.meaning self.now.trellis.now).states (stepped (T.Trellis.meaning self.now.trellis.now) (M.Measure.costs self.now.measure.now) A.Algebra.semiring samples.0 (λ s. slice_index_or first.old.weights.now s A.Algebra.semiring.zero)) second.old.weights.now second.new.weights.now }
        ensures first { Entries (T.Trellis.meaning self.now.trellis.now).states (stepped (T.Trellis.meaning self.now.trellis.now) (M.Measure.costs self.now.measure.now) A.Algebra.semiring samples.1 (λ s. slice_index_or second.new.weights.now s A.Algebra.semiring.zero)) first.old.weights.now first.new.weights.now }
        ensures first_slice { SameSlice first.old.weights first.new.weights }
        ensures second_slice { SameSlice second.old.weights second.new.weights }
    {
        self.step(samples.0, first, second);
        self.step(samples.1, second, first);
    }

    // One sample further, by way of the second row, from which it is copied.
    fn step_last(
        &self,
        sample: i16,
        first: &mut Row<'_, A::Weight>,
        second: &mut Row<'_, A::Weight>,
    )
        requires first { (T.Trellis.meaning self.now.trellis.now).states ≤ length first.old.weights.now }
        requires second { (T.Trellis.meaning self.now.trellis.now).states ≤ length second.old.weights.now }
        ensures second { Entries (T.Trellis.meaning self.now.trellis.now).states (stepped (T.Trellis.meaning self.now.trellis.now) (M.Measure.costs self.now.measure.now) A.Algebra.semiring sample (λ s. slice_index_or first.old.weights.now s A.Algebra.semiring.zero)) second.old.weights.now second.new.weights.now }
        ensures first { Copied (T.Trellis.meaning self.now.trellis.now).states second.new.weights.now first.old.weights.now first.new.weights.now }
        ensures first_slice { SameSlice first.old.weights first.new.weights }
        ensures second_slice { SameSlice second.old.weights second.new.weights }
    {
        self.step(sample, first, second);
        first.copy(second, self.trellis.states());
    }

    // All samples: by twos, then the last one, if one is left. The second row is cleared.
    fn run(&self, samples: &[i16], first: &mut Row<'_, A::Weight>, second: &mut Row<'_, A::Weight>)
        requires first { (T.Trellis.meaning self.now.trellis.now).states ≤ length first.old.weights.now }
        requires second { (T.Trellis.meaning self.now.trellis.now).states ≤ length second.old.weights.now }
        ensures first { Advanced (T.Trellis.meaning self.now.trellis.now) (M.Measure.costs self.now.measure.now) A.Algebra.semiring samples.now first.old.weights.now first.new.weights.now }
        ensures second { Entries (T.Trellis.meaning self.now.trellis.now).states (λ _. A.Algebra.semiring.zero) second.old.weights.now second.new.weights.now }
        ensures first_slice { SameSlice first.old.weights first.new.weights }
        ensures second_slice { SameSlice second.old.weights second.new.weights }
    {
        let mut left = samples;
        while let [sample, next, rest @ ..] = left {
            self.step_twice((*sample, *next), first, second);
            left = rest;
        }
        if let [sample] = left {
            self.step_last(*sample, first, second);
        }
        second.clear(self.trellis.states(), self.algebra.zero());
    }

    // The forward pass over two rows that have an entry for each state.
    pub(crate) fn sum(
        &self,
        samples: &[i16],
        start: Option<usize>,
        end: Option<usize>,
        first: &mut Row<'_, A::Weight>,
        second: &mut Row<'_, A::Weight>,
    ) -> A::Weight
        requires first { (T.Trellis.meaning self.now.trellis.now).states ≤ length first.old.weights.now }
        requires second { (T.Trellis.meaning self.now.trellis.now).states ≤ length second.old.weights.now }
        ensures answer { result ≡ path_sum (T.Trellis.meaning self.now.trellis.now) (M.Measure.costs self.now.measure.now) A.Algebra.semiring start end samples.now }
        ensures any_order { AnyOrder (T.Trellis.meaning self.now.trellis.now) (M.Measure.costs self.now.measure.now) A.Algebra.semiring start end samples.now result }
        ensures any_list { AnyList (T.Trellis.meaning self.now.trellis.now) (M.Measure.costs self.now.measure.now) A.Algebra.semiring start end samples.now result }
        ensures first { Entries (T.Trellis.meaning self.now.trellis.now).states (λ s. path_sum (T.Trellis.meaning self.now.trellis.now) (M.Measure.costs self.now.measure.now) A.Algebra.semiring start (Some s) samples.now) first.old.weights.now first.new.weights.now }
        ensures second { Entries (T.Trellis.meaning self.now.trellis.now).states (λ _. A.Algebra.semiring.zero) second.old.weights.now second.new.weights.now }
        ensures first_slice { SameSlice first.old.weights first.new.weights }
        ensures second_slice { SameSlice second.old.weights second.new.weights }
    {
        let n = self.trellis.states();
        first.open(self.algebra, n, start);
        self.run(samples, first, second);
        first.total(self.algebra, n, end)
    }
}
