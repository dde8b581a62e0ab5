// What is at the vertices of a network: their degrees, and the partners at an end of the reserved edge.
#![tactic(auto)]

mod degrees;
mod partners;

pub use degrees::{all_four, tally_edge};
pub use partners::{Partners, partners_at};
