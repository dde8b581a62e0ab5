// What the planner replies.
#![tactic(auto)]

// The lengths of the two texts that planning wrote.
#[derive(Clone, Copy, Debug, PartialEq, Eq, Hash)]
pub struct Planned {
    pub chain: usize,
    pub kept: usize,
}
