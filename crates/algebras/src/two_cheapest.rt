// Two cheapest: what do the two cheapest paths cost?
ghost use Rattle.std.specs.Prelude.{◌≡◌, ◌≤◌, ◌++◌, Some, decimal, codes};
ghost use Rattle.algebras.specs.TwoCosts.{pair, two_cheapest};
ghost use Rattle.algebras.specs.TwoLaws.{two_laws};

use crate::algebra::Algebra;
use crate::weights::TwoCosts;
use std::fmt;

impl TwoCosts {
    pub fn first(self) -> u64
        ensures { result ≡ self.first }
    {
        self.first
    }

    pub fn second(self) -> u64
        ensures { result ≡ self.second }
    {
        self.second
    }
}

impl fmt::Display for TwoCosts {
    ghost output = { λ w. Some (decimal w.first ++ codes " " ++ decimal w.second) };

    fn fmt<W: fmt::Write>(&self, f: &mut fmt::Formatter<W>) -> fmt::Result {
        write!(f, "{} {}", self.first, self.second)
    }
}

// Made of two numbers in order, so by a function and not by a conversion.
fn paired(first: u64, second: u64) -> TwoCosts
    requires { first ≤ second }
    ensures { result ≡ pair first second }
{
    TwoCosts { first, second }
}

// The two smallest of the four: each weight has its smaller one first.
fn two_smallest(a: TwoCosts, b: TwoCosts) -> TwoCosts
    ensures { result ≡ two_cheapest.plus a b }
{
    TwoCosts {
        first: a.first.min(b.first),
        second: a.first.max(b.first).min(a.second.min(b.second)),
    }
}

// The two smallest of the four capped sums: the firsts make the smallest, and the seconds the largest.
fn two_smallest_sums(a: TwoCosts, b: TwoCosts) -> TwoCosts
    ensures { result ≡ two_cheapest.times a b }
{
    TwoCosts {
        first: a.first.saturating_add(b.first),
        second: a
            .first
            .saturating_add(b.second)
            .min(a.second.saturating_add(b.first)),
    }
}

#[derive(Clone, Copy)]
pub struct TwoCheapest;

impl Algebra for TwoCheapest {
    type Weight = TwoCosts;

    ghost semiring = { two_cheapest };

    ghost lawful = { two_laws };

    fn zero(&self) -> TwoCosts {
        paired(u64::MAX, u64::MAX)
    }

    fn one(&self) -> TwoCosts {
        paired(0, u64::MAX)
    }

    fn plus(&self, a: TwoCosts, b: TwoCosts) -> TwoCosts {
        two_smallest(a, b)
    }

    fn times(&self, a: TwoCosts, b: TwoCosts) -> TwoCosts {
        two_smallest_sums(a, b)
    }

    fn weight(&self, cost: u32) -> TwoCosts {
        paired(u64::from(cost), u64::MAX)
    }
}
