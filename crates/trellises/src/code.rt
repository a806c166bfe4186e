// The convolutional code of rate 1/n.
ghost use Rattle.std.specs.Prelude.{◌≡◌, ◌^◌, ◌<◌, ◌≤◌, length, map, unsigned_abs};
ghost use Rattle.std.specs.Result.{result_ok};
ghost use Rattle.model.specs.Bare.{or_bare};
ghost use Rattle.model.specs.Refusals.{answer};
ghost use Rattle.trellises.specs.Codes.{code_bit, code_word, generators_of, code_label, code_check, code_trellis, encoder_meaning, code_meaning};
ghost use Rattle.trellises.specs.Encoders.{encoder_lawful};

use crate::or_bare::OrBare;
use crate::ranges::{all_between, largest_of};
use arrays::list::FixedList;
use model::refusal::Refusal;
use model::trellis::Trellis;

mod encoder;

use encoder::Encoder;

// A code takes bits.
const LETTERS: usize = 2;

// The state holds the last letters, the newest highest; without an encoder the trellis is bare.
pub type Code = OrBare<Encoder>;

impl Code {
    // Whether the parameters are in range.
    pub fn check(constraint: i32, inversion: i32, generators: &[i32]) -> Result<(), Refusal>
        ensures { answer result ≡ code_check constraint inversion generators.now }
    {
        if !(1..=7).contains(&constraint) {
            return Err(Refusal::ConstraintLength);
        }
        if !(1..=4).contains(&generators.len()) {
            return Err(Refusal::GeneratorCount);
        }
        if !all_between(1, largest_of(constraint as usize), generators) {
            return Err(Refusal::GeneratorValue);
        }
        if !(0..=largest_of(generators.len())).contains(&inversion) {
            return Err(Refusal::InversionWord);
        }
        Ok(())
    }

    // The code, bare where its parameters are refused.
    pub fn new(constraint: i32, inversion: i32, generators: &[i32]) -> Self
        ensures { code_meaning result ≡ code_trellis constraint inversion generators.now }
    {
        OrBare {
            accepted: Encoder::new(constraint, inversion, generators).ok(),
        }
    }
}

// A generator's bit: the parity of those digits of the register that it has.
fn bit(register: u32, generator: u32) -> u32
    ensures { result ≡ code_bit register generator }
{
    (register & generator).count_ones() % 2
}

// The bits of the generators on a register, the first one's highest.
fn word(generators: &[i32], register: u32) -> u32
    requires { length generators.now ≤ 4 }
    ensures { result ≡ code_word (map unsigned_abs generators.now) register }
{
    generators.iter().fold(0, |word, generator| {
        word << 1 | bit(register, generator.unsigned_abs())
    })
}

impl Encoder {
    // The encoder of parameters in range, else why they are refused.
    fn new(constraint: i32, inversion: i32, generators: &[i32]) -> Result<Self, Refusal>
        ensures { or_bare encoder_meaning (result_ok result) ≡ code_trellis constraint inversion generators.now }
    {
        Code::check(constraint, inversion, generators)?;
        Ok(Encoder {
            constraint: constraint as usize,
            inversion: inversion as u32,
            generators: FixedList::from_slice(0, generators),
        })
    }

    // The label of a register: its bits, each flipped where the inversion word has a one.
    fn label(&self, register: u32) -> i16
        ensures { result ≡ code_label self.now.inversion (generators_of self.now) register }
    {
        (word(self.generators.as_slice(), register) ^ self.inversion) as i16
    }
}

impl Trellis for Encoder {
    ghost meaning = { encoder_meaning };

    ghost lawful = { λ e. encoder_lawful e };

    // A state holds one letter less than the register.
    fn states(&self) -> usize {
        1 << (self.constraint - 1)
    }

    fn letters(&self) -> usize {
        LETTERS
    }

    fn branch(&self, state: usize, letter: usize) -> Option<(usize, i16)> {
        let states = self.states();
        (state < states && letter < LETTERS).then(|| {
            let register = letter * states + state;
            (register / 2, self.label(register as u32))
        })
    }
}
