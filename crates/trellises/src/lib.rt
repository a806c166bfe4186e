// Trellises: taps, convolutional codes, run-length limits, and cascades of one over another.
#![tactic(auto)]

pub mod cascade;
pub mod code;
pub mod examples;
pub mod or_bare;
mod ranges;
pub mod run_length;
pub mod taps;
