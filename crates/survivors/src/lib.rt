// The survivor pass, which keeps for each step and state the last branch of the cheapest path to it, and the way back.
#![tactic(auto)]

pub mod choices;
mod costs;
pub mod ending;
pub mod ends;
pub mod examples;
pub mod laws;
pub mod layout;
pub mod rank;
mod ranks;
pub mod standing;
pub mod standings;
pub mod traceback;
