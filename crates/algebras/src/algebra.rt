// The algebra interface.
ghost use Rattle.std.specs.Prelude.{◌≡◌};
ghost use Rattle.algebras.specs.Semirings.{Semiring, Laws};

// Weights that are summed over paths and multiplied along them; the product need not commute.
pub trait Algebra {
    type Weight: Copy;

    ghost semiring: { Semiring Self.Weight };

    fn zero(&self) -> Self::Weight
        ensures { result ≡ semiring.zero };

    fn one(&self) -> Self::Weight
        ensures { result ≡ semiring.one };

    fn plus(&self, a: Self::Weight, b: Self::Weight) -> Self::Weight
        ensures { result ≡ semiring.plus a b };

    fn times(&self, a: Self::Weight, b: Self::Weight) -> Self::Weight
        ensures { result ≡ semiring.times a b };

    fn weight(&self, cost: u32) -> Self::Weight
        ensures { result ≡ semiring.weight cost };

    ghost lawful: { Laws semiring };
}
