// What a run does, from the words of the command line.
use std::error::Error;
use std::fmt;
use std::str::FromStr;

// What is done with each frame. Every part takes the samples, and all but the first settle.
#[derive(Clone, Copy, Debug, PartialEq, Eq)]
pub(crate) enum Part {
    Samples,
    Settle,
    Report,
    Weigh,
    Whole,
}

#[derive(Clone, Copy, Debug, PartialEq, Eq)]
pub(crate) enum Workload {
    Ccsds,
    Taps2,
    Taps4,
    // A binary channel with so many letters in its state.
    Memory(usize),
}

// How many frames of how many samples, and what is done with each.
#[derive(Clone, Copy, Debug, PartialEq, Eq)]
pub(crate) struct Plan {
    pub(crate) frames: u64,
    pub(crate) samples: usize,
    pub(crate) part: Part,
}

// What a word of the command line should have named.
#[derive(Clone, Copy, Debug, PartialEq, Eq)]
pub(crate) enum NameError {
    Part,
    Workload,
}

impl fmt::Display for NameError {
    fn fmt<W: fmt::Write>(&self, f: &mut fmt::Formatter<W>) -> fmt::Result {
        match self {
            NameError::Part => write!(f, "no such part"),
            NameError::Workload => write!(f, "no such workload"),
        }
    }
}

impl Error for NameError {}

impl FromStr for Part {
    type Err = NameError;

    fn from_str(name: &str) -> Result<Part, NameError> {
        match name {
            "samples" => Ok(Part::Samples),
            "settle" => Ok(Part::Settle),
            "report" => Ok(Part::Report),
            "weigh" => Ok(Part::Weigh),
            "whole" => Ok(Part::Whole),
            _ => Err(NameError::Part),
        }
    }
}

impl FromStr for Workload {
    type Err = NameError;

    fn from_str(name: &str) -> Result<Workload, NameError> {
        match name {
            "ccsds" => Ok(Workload::Ccsds),
            "taps2" => Ok(Workload::Taps2),
            "taps4" => Ok(Workload::Taps4),
            _ => match name.strip_prefix("memory").map(str::as_bytes) {
                // One digit, and no sign or zero before it, as a number read by `parse` may have.
                Some([letters @ b'1'..=b'6']) => Ok(Workload::Memory(usize::from(*letters - b'0'))),
                _ => Err(NameError::Workload),
            },
        }
    }
}
