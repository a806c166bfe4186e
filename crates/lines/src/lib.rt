// The lines of a channel description: its words, its numbers, and the six forms that a line can have.
#![tactic(auto)]

pub mod form;
pub mod lexer;
pub mod list;
pub mod number;
