// Why a call is refused, and the number that stands for it.
ghost use Rattle.std.specs.Prelude.{◌≡◌};
ghost use Rattle.model.specs.Refusals.{refusal_number, layer_number, refused_at, refused, printed_refusal};

use std::error::Error;
use std::fmt;

// The reasons, each with its number.
#[derive(Clone, Copy, Debug, PartialEq, Eq)]
pub enum Refusal {
    TapsLetters = 1,
    TapsCount = 2,
    TapValue = 3,
    ConstraintLength = 4,
    GeneratorCount = 5,
    GeneratorValue = 6,
    InversionWord = 7,
    RunLength = 8,
    CascadeStates = 10,
    BitsWidth = 11,
    SamplesHeld = 20,
    NotAState = 21,
    RecordFull = 22,
    RewindBeyond = 23,
    NoPath = 24,
    BufferShort = 25,
    RowShort = 26,
    LineForm = 30,
    LineRepeated = 31,
    LineSet = 34,
    BlockCut = 40,
    BlockKind = 42,
    BlockOrder = 43,
    PayloadLength = 44,
    BytesAfterEnd = 45,
    RecordingLarge = 46,
}

impl Refusal {
    // The number of the refusal, never 0.
    pub fn number(self) -> u8
        ensures { result ≡ refusal_number self }
    {
        self as u8
    }

    // The fault that a layer finds for this reason at a place.
    pub fn at(self, layer: Layer, place: usize) -> Fault
        ensures { refused result ≡ refused_at self layer place }
    {
        Fault {
            refusal: self,
            layer,
            place,
        }
    }
}

impl fmt::Display for Refusal {
    ghost output = { λ r. printed_refusal r };

    fn fmt<W: fmt::Write>(&self, f: &mut fmt::Formatter<W>) -> fmt::Result {
        let number = self.number();
        write!(f, "refused {number}")
    }
}

impl Error for Refusal {}

// The part of a reading in which a fault was found, each with its number.
#[derive(Clone, Copy, Debug, PartialEq, Eq)]
pub enum Layer {
    Blocks = 1,
    Lines = 2,
    Makers = 3,
    Calls = 4,
}

impl Layer {
    // The number of the layer.
    pub fn number(self) -> u8
        ensures { result ≡ layer_number self }
    {
        self as u8
    }
}

// What a reader found wrong: why, in which layer, and at which byte of what it read.
#[derive(Clone, Copy, Debug, PartialEq, Eq)]
pub struct Fault {
    pub refusal: Refusal,
    pub layer: Layer,
    pub place: usize,
}
