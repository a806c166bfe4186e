// The lines of a whole description, and the setup that they give.
#![tactic(auto)]

pub mod held;
pub mod setup;
