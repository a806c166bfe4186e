// Cheapest with count: what does the cheapest path cost, and how many paths cost that?
ghost use Rattle.std.specs.Prelude.{◌≡◌, ◌++◌, Some, decimal, codes};
ghost use Rattle.algebras.specs.Numbers.{count_at};
ghost use Rattle.algebras.specs.CostCounts.{cost_count, cheapest_with_count};
ghost use Rattle.algebras.specs.CostCountLaws.{cost_count_laws};

use crate::algebra::Algebra;
use crate::weights::CostCount;
use std::cmp::Ordering;
use std::fmt;

impl CostCount {
    pub fn cost(self) -> u64
        ensures { result ≡ self.cost }
    {
        self.cost
    }

    pub fn count(self) -> u64
        ensures { result ≡ self.count }
    {
        self.count
    }
}

impl fmt::Display for CostCount {
    ghost output = { λ w. Some (decimal w.cost ++ codes " " ++ decimal w.count) };

    fn fmt<W: fmt::Write>(&self, f: &mut fmt::Formatter<W>) -> fmt::Result {
        write!(f, "{} {}", self.cost, self.count)
    }
}

// A cost of INF has no count.
fn count_at(cost: u64, count: u64) -> u64
    ensures { result ≡ count_at cost count }
{
    if cost < u64::MAX { count } else { 0 }
}

// Made of two numbers, each with its name, so by a function and not by a conversion.
fn counted(cost: u64, count: u64) -> CostCount
    ensures { result ≡ cost_count cost count }
{
    CostCount {
        cost,
        count: count_at(cost, count),
    }
}

#[derive(Clone, Copy)]
pub struct CheapestWithCount;

impl Algebra for CheapestWithCount {
    type Weight = CostCount;

    ghost semiring = { cheapest_with_count };

    ghost lawful = { cost_count_laws };

    fn zero(&self) -> CostCount {
        counted(u64::MAX, 0)
    }

    fn one(&self) -> CostCount {
        counted(0, 1)
    }

    fn plus(&self, a: CostCount, b: CostCount) -> CostCount {
        match a.cost.cmp(&b.cost) {
            Ordering::Less => a,
            Ordering::Greater => b,
            Ordering::Equal => counted(a.cost, a.count.wrapping_add(b.count)),
        }
    }

    fn times(&self, a: CostCount, b: CostCount) -> CostCount {
        counted(a.cost.saturating_add(b.cost), a.count.wrapping_mul(b.count))
    }

    fn weight(&self, cost: u32) -> CostCount {
        counted(u64::from(cost), 1)
    }
}
