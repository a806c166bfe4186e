// Recordings: the channel that they describe, the samples that they carry, and what is detected behind these.
#![tactic(auto)]

pub mod outcome;
pub mod reader;
mod steps;
