// Channels from their descriptions.
#![tactic(auto)]

pub mod channel;
pub mod check;
pub mod examples;
pub mod measure;
pub mod reader;
