// A record of samples over a trellis and a measure: it listens, it is settled, and then it answers.
#![tactic(auto)]

pub mod answers;
pub mod call;
pub mod listening;
pub mod making;
pub mod record;
pub mod replay;
pub mod report;
pub mod reporting;
pub mod settled;
pub mod settling;
mod table;
pub mod weighing;
