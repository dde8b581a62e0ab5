// The library for C, plans: network check, planner, candidates, chain check, reasons and tables, with 0 or a refusal's
// number as result.
#![tactic(auto)]

mod explaining;
mod networks;
mod plans;
mod reserving;
mod solver;

pub use explaining::thinning_reasons;
pub use networks::thinning_check_network;
pub use plans::{thinning_check_chain, thinning_plan};
pub use reserving::thinning_plan_candidates;
pub use solver::{thinning_check_table, thinning_plan_table, thinning_table_network};
