// One run of the forward pass in each algebra, and a line that says what came of it.
ghost use Rattle.std.specs.Prelude.{◌≡◌, ◌*◌, ◌^◌, ◌<◌};
ghost use Rattle.std.specs.Mem.{type_size};
ghost use Rattle.std.specs.Result.{result_ok};
ghost use Rattle.model.specs.Refusals.{answer};
ghost use Rattle.paths.specs.Sums.{path_sum};
ghost use Rattle.paths.specs.Rows.{row_check, if_long_enough};
ghost use Rattle.path_trials.specs.Tangles.{tangle};
ghost use Rattle.path_trials.specs.Distances.{distance};

use crate::distance::Apart;
use crate::matrices::Matrices;
use crate::tangle::Tangle;
use algebras::algebra::Algebra;
use algebras::boolean::Boolean;
use algebras::cheapest::Cheapest;
use algebras::cheapest_with_count::CheapestWithCount;
use algebras::counting::Counting;
use algebras::two_cheapest::TwoCheapest;
use model::measure::Measure;
use model::refusal::Refusal;
use paths::forward::forward;
use std::fmt::Display;
use std::io;

// Samples, a start and an end, under a name.
#[derive(Clone, Copy)]
pub(crate) struct Trial<'a> {
    pub(crate) name: &'a str,
    pub(crate) samples: &'a [i16],
    pub(crate) start: Option<usize>,
    pub(crate) end: Option<usize>,
}

// The forward pass of a trial over rows of a given algebra.
fn run<A: Algebra>(
    trial: Trial<'_>,
    algebra: &A,
    first: &mut [A::Weight],
    second: &mut [A::Weight],
) -> Result<A::Weight, Refusal>
    ensures value { result_ok result ≡ if_long_enough tangle first.old second.old (path_sum tangle distance A.Algebra.semiring trial.entry.start trial.entry.end trial.entry.samples.now) }
    ensures checked { answer result ≡ row_check tangle first.old second.old }
{
    forward(
        &Tangle,
        &Apart,
        algebra,
        trial.samples,
        trial.start,
        trial.end,
        first,
        second,
    )
}

// A trial in an algebra, under its word; the rows hold ones before, and fit in memory.
fn try_sum<A: Algebra>(
    rt: &HostRuntime,
    trial: Trial<'_>,
    algebra: &A,
    word: &str,
) -> io::Result<()>
where
    A::Weight: Display,
    requires { 4 * type_size A.Weight.row < 2 ^ 63 }
{
    let name = trial.name;
    let one = algebra.one();
    if let Ok(sum) = run(trial, algebra, &mut [one; 4], &mut [one; 4]) {
        println!(rt; "{name}: {word} {sum}")?;
    }
    Ok(())
}

// The rows are one entry longer than the states are many, and hold ones before.
fn try_matrices(rt: &HostRuntime, trial: Trial<'_>) -> io::Result<()> {
    let name = trial.name;
    let mut first = [Matrices.one(); 5];
    let mut second = [Matrices.one(); 5];
    if let Ok(sum) = run(trial, &Matrices, &mut first, &mut second) {
        println!(rt; "{name}: matrices {sum}")?;
        for entry in first {
            println!(rt; "{name}: first row {entry}")?;
        }
        for entry in second {
            println!(rt; "{name}: second row {entry}")?;
        }
    }
    Ok(())
}

// A trial in all algebras.
pub(crate) fn try_all(rt: &HostRuntime, trial: Trial<'_>) -> io::Result<()> {
    try_sum(rt, trial, &Boolean, "boolean")?;
    try_sum(rt, trial, &Counting, "counting")?;
    try_sum(rt, trial, &Cheapest, "cheapest")?;
    try_sum(rt, trial, &CheapestWithCount, "cheapest with count")?;
    try_sum(rt, trial, &TwoCheapest, "two cheapest")?;
    try_matrices(rt, trial)
}

// A row with fewer entries than states is refused, whichever of the two it is.
pub(crate) fn try_short(rt: &HostRuntime, trial: Trial<'_>) -> io::Result<()> {
    let name = trial.name;
    if let Err(refusal) = run(trial, &Boolean, &mut [true; 3], &mut [true; 4]) {
        println!(rt; "{name}: first row {refusal}")?;
    }
    if let Err(refusal) = run(trial, &Boolean, &mut [true; 4], &mut [true; 3]) {
        println!(rt; "{name}: second row {refusal}")?;
    }
    Ok(())
}
