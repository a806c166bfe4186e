// The lowest bits that differ.
ghost use Rattle.std.specs.Prelude.{◌≡◌, ◌≤◌};
ghost use Rattle.model.specs.Refusals.{answer};
ghost use Rattle.measures.specs.BitCounts.{form, differing, bit_count, bits_check, bits_measure};
ghost use Rattle.std.proofs.Common.{arith};
ghost use Rattle.measures.specs.Counting.{differing_le};

use model::measure::Measure;
use model::refusal::Refusal;

// How many of the lowest bits are compared. No option: a refused width is 0, so that the count itself costs nothing and has
// no case of its own.
#[derive(Clone, Copy)]
pub struct Bits {
    width: u32,
    ghost few: { width ≤ 8 },
}

impl Bits {
    // Whether a number is a width. A test and its two answers: `then_some` and `ok_or` would say them backwards.
    pub fn check(width: i32) -> Result<(), Refusal>
        ensures { answer result ≡ bits_check width }
    {
        if (1..=8).contains(&width) {
            Ok(())
        } else {
            Err(Refusal::BitsWidth)
        }
    }

    // Bits of that width; with a refused width it costs nothing.
    pub fn new(width: i32) -> Bits
        ensures { bit_count result.width ≡ bits_measure width }
    {
        Bits {
            width: Self::check(width).map_or(0, |_| width as u32),
        }
    }
}

impl Measure for Bits {
    ghost costs = { λ m. bit_count m.width };

    ghost bounded = { λ m label sample x y. omega (arith, differing_le m.width (form label) (form sample)) };

    fn cost(&self, label: i16, sample: i16) -> u32 {
        count_differing(self.width, label.cast_unsigned(), sample.cast_unsigned())
    }
}

fn count_differing(width: u32, a: u16, b: u16) -> u32
    requires { width ≤ 8 }
    ensures { result ≡ differing width a b }
{
    let lowest = (1 << width) - 1;
    ((a ^ b) & lowest).count_ones()
}
