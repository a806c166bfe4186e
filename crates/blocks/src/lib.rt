// The blocks of a recording, and the samples that a block carries.
#![tactic(auto)]

pub mod block;
pub mod examples;
pub mod kind;
pub mod sample;
