// Matrices as weights: their product does not commute.
ghost use Rattle.std.specs.Prelude.{◌≡◌, ◌+◌, ◌*◌, ◌%◌};
ghost use Rattle.path_trials.specs.Matrices.{matrix, matrices, OrderMatters};
ghost use Rattle.path_trials.specs.MatrixLaws.{matrix_laws};

use crate::matrix::Matrix;
use algebras::algebra::Algebra;

fn rows(a: u8, b: u8, c: u8, d: u8) -> Matrix
    ensures { result ≡ matrix a b c d }
{
    Matrix { a, b, c, d }
}

// A row by a column.
fn dot(a: u8, b: u8, c: u8, d: u8) -> u8
    ensures { result ≡ (a * c + b * d) % 256 }
{
    a.wrapping_mul(c).wrapping_add(b.wrapping_mul(d))
}

#[derive(Clone, Copy)]
pub(crate) struct Matrices;

impl Algebra for Matrices {
    type Weight = Matrix;

    ghost semiring = { matrices };

    ghost lawful = { matrix_laws };

    fn zero(&self) -> Matrix {
        rows(0, 0, 0, 0)
    }

    fn one(&self) -> Matrix {
        rows(1, 0, 0, 1)
    }

    fn plus(&self, x: Matrix, y: Matrix) -> Matrix {
        rows(
            x.a.wrapping_add(y.a),
            x.b.wrapping_add(y.b),
            x.c.wrapping_add(y.c),
            x.d.wrapping_add(y.d),
        )
    }

    fn times(&self, x: Matrix, y: Matrix) -> Matrix {
        rows(
            dot(x.a, x.b, y.a, y.c),
            dot(x.a, x.b, y.b, y.d),
            dot(x.c, x.d, y.a, y.c),
            dot(x.c, x.d, y.b, y.d),
        )
    }

    fn weight(&self, cost: u32) -> Matrix {
        rows((cost % 256) as u8, 1, 1, 0)
    }
}

// The product does not commute.
pub(crate) fn order_stands()
    ensures { OrderMatters }
{}
