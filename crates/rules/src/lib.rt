// The rules over a network: judging a step and an ending, and the planner.
#![tactic(auto)]

mod choice;
mod ending;
mod judge;
mod others;
mod planner;

pub use choice::{Pair, chosen_pair, chosen_step};
pub use ending::judge_ending;
pub use judge::judge_step;
pub use planner::{StepColumns, plan_steps};
