// The one call that C programs link: a recording in, the outcome or the fault out.
#![tactic(auto)]

pub mod answer;
pub mod detection;
