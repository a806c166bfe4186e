// Three measures: the squared difference, the bits that differ, and erased samples over any measure.
#![tactic(auto)]

pub mod bits;
pub mod erasing;
pub mod examples;
pub mod square;
