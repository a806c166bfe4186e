// What the detector is generic in, trellises and measures, and the refusals that every part answers with.
#![tactic(auto)]

pub mod measure;
pub mod refusal;
pub mod trellis;
