// The forward pass: sums over all paths, in any algebra.
ghost use Rattle.std.specs.Prelude.{◌≡◌, IfOk};
ghost use Rattle.std.specs.Result.{result_ok};
ghost use Rattle.model.specs.Refusals.{answer};
ghost use Rattle.paths.specs.Sums.{path_sum};
ghost use Rattle.paths.specs.Laws.{AnyOrder, AnyList};
ghost use Rattle.paths.specs.Rows.{row_check, if_long_enough, RowsLeft};

use crate::branches::list_branches;
use crate::pass::Pass;
use crate::row::Row;
use algebras::algebra::Algebra;
use model::measure::Measure;
use model::refusal::Refusal;
use model::trellis::Trellis;

// The sum of the weights of all admissible paths on the samples. The first row then has, for each
// state, the sum over the paths from a permitted start to it, and the second zeros.
pub fn forward<T: Trellis, M: Measure, A: Algebra>(
    trellis: &T,
    measure: &M,
    algebra: &A,
    samples: &[i16],
    start: Option<usize>,
    end: Option<usize>,
    first: &mut [A::Weight],
    second: &mut [A::Weight],
) -> Result<A::Weight, Refusal>
    ensures value { result_ok result ≡ if_long_enough (T.Trellis.meaning trellis.now) first.old second.old (path_sum (T.Trellis.meaning trellis.now) (M.Measure.costs measure.now) A.Algebra.semiring start end samples.now) }
    ensures checked { answer result ≡ row_check (T.Trellis.meaning trellis.now) first.old second.old }
    ensures rows { RowsLeft (T.Trellis.meaning trellis.now) (M.Measure.costs measure.now) A.Algebra.semiring start samples.now first.old first.new second.old second.new }
    ensures any_order { IfOk result (AnyOrder (T.Trellis.meaning trellis.now) (M.Measure.costs measure.now) A.Algebra.semiring start end samples.now) }
    ensures any_list { IfOk result (AnyList (T.Trellis.meaning trellis.now) (M.Measure.costs measure.now) A.Algebra.semiring start end samples.now) }
{
    let n = trellis.states();
    if first.len() < n || second.len() < n {
        return Err(Refusal::RowShort);
    }
    let list = list_branches(trellis);
    let pass = Pass {
        trellis,
        measure,
        algebra,
        branches: list.as_slice(),
    };
    let mut one = Row { weights: first };
    let mut two = Row { weights: second };
    Ok(pass.sum(samples, start, end, &mut one, &mut two))
}
