// A matrix of two rows and two columns, a b and c d, each entry modulo 256.
ghost use Rattle.std.specs.Prelude.{◌<◌, ◌++◌, Some, decimal, codes};

use std::fmt;

#[derive(Clone, Copy)]
pub(crate) struct Matrix {
    pub(crate) a: u8,
    pub(crate) b: u8,
    pub(crate) c: u8,
    pub(crate) d: u8,
    ghost fits: { (a < 256) × (b < 256) × (c < 256) × (d < 256) },
}

impl fmt::Display for Matrix {
    ghost output = { λ m. Some (decimal m.a ++ codes " " ++ decimal m.b ++ codes " " ++ decimal m.c ++ codes " " ++ decimal m.d) };

    fn fmt<W: fmt::Write>(&self, f: &mut fmt::Formatter<W>) -> fmt::Result {
        write!(f, "{} {} {} {}", self.a, self.b, self.c, self.d)
    }
}
