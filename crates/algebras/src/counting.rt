// Counting: how many paths are there?
ghost use Rattle.std.specs.Prelude.{◌≡◌, Some, decimal};
ghost use Rattle.algebras.specs.Counts.{count_of, counting};
ghost use Rattle.algebras.specs.CountLaws.{counting_laws};

use crate::algebra::Algebra;
use crate::weights::Count;
use std::fmt;

impl Count {
    pub fn value(self) -> u64
        ensures { result ≡ self.value }
    {
        self.value
    }
}

impl From<u64> for Count {
    ghost from_gives = { λ value count. count ≡ count_of value };

    fn from(value: u64) -> Count {
        Count { value }
    }
}

impl fmt::Display for Count {
    ghost output = { λ count. Some (decimal count.value) };

    fn fmt<W: fmt::Write>(&self, f: &mut fmt::Formatter<W>) -> fmt::Result {
        write!(f, "{}", self.value)
    }
}

#[derive(Clone, Copy)]
pub struct Counting;

impl Algebra for Counting {
    type Weight = Count;

    ghost semiring = { counting };

    ghost lawful = { counting_laws };

    fn zero(&self) -> Count {
        Count::from(0)
    }

    fn one(&self) -> Count {
        Count::from(1)
    }

    fn plus(&self, a: Count, b: Count) -> Count {
        Count::from(a.value.wrapping_add(b.value))
    }

    fn times(&self, a: Count, b: Count) -> Count {
        Count::from(a.value.wrapping_mul(b.value))
    }

    fn weight(&self, cost: u32) -> Count {
        self.one()
    }
}
