// Weight algebras: the interface, and five of them.
#![tactic(auto)]

pub mod algebra;
pub mod boolean;
pub mod cheapest;
pub mod cheapest_with_count;
pub mod counting;
pub mod examples;
pub mod two_cheapest;
pub mod weights;
