// Cheapest: what does the cheapest path cost?
ghost use Rattle.std.specs.Prelude.{◌≡◌, Some, decimal};
ghost use Rattle.algebras.specs.Costs.{cost_of, cheapest};
ghost use Rattle.algebras.specs.CostLaws.{cheapest_laws};

use crate::algebra::Algebra;
use crate::weights::Cost;
use std::fmt;

impl Cost {
    pub fn value(self) -> u64
        ensures { result ≡ self.value }
    {
        self.value
    }
}

impl From<u64> for Cost {
    ghost from_gives = { λ value cost. cost ≡ cost_of value };

    fn from(value: u64) -> Cost {
        Cost { value }
    }
}

impl fmt::Display for Cost {
    ghost output = { λ cost. Some (decimal cost.value) };

    fn fmt<W: fmt::Write>(&self, f: &mut fmt::Formatter<W>) -> fmt::Result {
        write!(f, "{}", self.value)
    }
}

#[derive(Clone, Copy)]
pub struct Cheapest;

impl Algebra for Cheapest {
    type Weight = Cost;

    ghost semiring = { cheapest };

    ghost lawful = { cheapest_laws };

    fn zero(&self) -> Cost {
        Cost::from(u64::MAX)
    }

    fn one(&self) -> Cost {
        Cost::from(0)
    }

    fn plus(&self, a: Cost, b: Cost) -> Cost {
        Cost::from(a.value.min(b.value))
    }

    fn times(&self, a: Cost, b: Cost) -> Cost {
        Cost::from(a.value.saturating_add(b.value))
    }

    fn weight(&self, cost: u32) -> Cost {
        Cost::from(u64::from(cost))
    }
}
