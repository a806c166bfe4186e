// The sum over all admissible paths on what a settled record holds, in any algebra.
ghost use Rattle.std.specs.Prelude.{◌≡◌, IfOk};
ghost use Rattle.std.specs.Result.{result_ok};
ghost use Rattle.model.specs.Refusals.{answer};
ghost use Rattle.paths.specs.Laws.{AnyList};
ghost use Rattle.paths.specs.Rows.{row_check, if_long_enough, RowsLeft};
ghost use Rattle.survivors.specs.Choices.{TableOf};
ghost use Rattle.records.specs.Held.{Held};
ghost use Rattle.records.specs.Asked.{sum_in};

use crate::settled::Settled;
use algebras::algebra::Algebra;
use model::measure::Measure;
use model::refusal::Refusal;
use model::trellis::Trellis;
use paths::forward::forward;

impl<T: Trellis, M: Measure> Settled<T, M> {
    // The sum of the weights of all admissible paths. The first row then has, for each state, the sum over the paths
    // from a permitted start to it, and the second zeros; entries past the states stay.
    pub fn weigh<A: Algebra>(
        &self,
        algebra: &A,
        first: &mut [A::Weight],
        second: &mut [A::Weight],
    ) -> Result<A::Weight, Refusal>
        ensures value { result_ok result ≡ if_long_enough (T.Trellis.meaning self.now.seen.trellis) first.old second.old (sum_in T.Trellis.meaning M.Measure.costs A.Algebra.semiring self.now.seen) }
        ensures checked { answer result ≡ row_check (T.Trellis.meaning self.now.seen.trellis) first.old second.old }
        ensures rows { RowsLeft (T.Trellis.meaning self.now.seen.trellis) (M.Measure.costs self.now.seen.measure) A.Algebra.semiring self.now.seen.held.start self.now.seen.held.samples first.old first.new second.old second.new }
        ensures chosen { TableOf (T.Trellis.meaning self.now.seen.trellis) (M.Measure.costs self.now.seen.measure) self.now.seen.held.start self.now.seen.held.samples self.now.choices }
        ensures law { IfOk result (AnyList (T.Trellis.meaning self.now.seen.trellis) (M.Measure.costs self.now.seen.measure) A.Algebra.semiring self.now.seen.held.start self.now.seen.held.end self.now.seen.held.samples) }
    {
        forward(
            &self.trellis,
            &self.measure,
            algebra,
            self.table.samples.as_slice(),
            self.table.start,
            self.table.end,
            first,
            second,
        )
    }
}
