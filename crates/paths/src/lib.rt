// Paths through a trellis, and sums over all of them in any weight algebra.
#![tactic(auto)]

pub mod anchor;
pub mod branch;
pub mod branches;
mod entries;
pub mod examples;
pub mod forward;
pub mod laws;
mod pass;
mod row;
