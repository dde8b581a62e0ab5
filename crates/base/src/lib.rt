// What every crate stands on: refusals by their numbers, and what else a service refuses with; what an export gives of a
// result, the limits of a network and of its texts, columns.
#![tactic(auto)]

mod column;
mod exports;
mod lengths;
mod limits;
mod refusals;
mod refusing;

pub use column::copy;
pub use exports::give_out;
pub use lengths::{LONGEST_CHAIN, LONGEST_KEPT, LONGEST_NETWORK, LONGEST_PAGE};
pub use limits::{
    COST_LIMIT, EDGE_LIMIT, FEWEST_VERTICES, STEP_LIMIT, VERTEX_LIMIT, cost_ok, vertices_ok,
};
pub use refusals::Refusal;
pub use refusing::Refuses;
