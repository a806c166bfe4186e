// What the program `detect` prints.
#![tactic(auto)]

pub mod text;
