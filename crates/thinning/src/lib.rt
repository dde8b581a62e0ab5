// The services: check a network, check a chain, plan. Those over a network that was loaded serve every kind of text.
#![tactic(auto)]

mod chain;
mod checker;
mod kept;
mod network;
mod planner;

pub use chain::check_from;
pub use checker::check_chain;
pub use network::{accept_text, check_loaded, check_network};
pub use planner::{plan, plan_loaded};
