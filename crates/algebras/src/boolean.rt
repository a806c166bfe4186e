// Boolean: is there a path?
ghost use Rattle.algebras.specs.Booleans.{boolean};
ghost use Rattle.std.proofs.Common.{rules};

use crate::algebra::Algebra;

#[derive(Clone, Copy)]
pub struct Boolean;

impl Algebra for Boolean {
    type Weight = bool;

    ghost semiring = { boolean };

    ghost lawful = { Prim.search rules };

    fn zero(&self) -> bool {
        false
    }

    fn one(&self) -> bool {
        true
    }

    fn plus(&self, a: bool, b: bool) -> bool {
        a | b
    }

    fn times(&self, a: bool, b: bool) -> bool {
        a & b
    }

    fn weight(&self, cost: u32) -> bool {
        self.one()
    }
}
