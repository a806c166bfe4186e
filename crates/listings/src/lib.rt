// The texts that the programs print, as bytes.
#![tactic(auto)]

pub mod listing;
pub mod text;
