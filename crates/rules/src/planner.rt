// The planner: it splits off one vertex, plans the smaller network and lifts the kept set.
ghost use Rattle.std.specs.Prelude.{replicate, pos, ◌≡◌, ◌+◌, ◌-◌, ◌<◌, ◌≤◌, set};
ghost use Rattle.base.specs.Limits.{edge_limit, step_limit};
ghost use Rattle.graph.specs.Plan.{plan_drop, plan_kept};
ghost use Rattle.graph.specs.State.{no_marks};
ghost use Rattle.rules.specs.Running.{Running, Last};
ghost use Rattle.rules.specs.Plans.{planned, StepRoom};

use super::choice::chosen_step;
use super::ending::{chosen_ending, mark_two};
use base::{EDGE_LIMIT, STEP_LIMIT};
use graph::{Network, Step, lift_marks};

// The plan of a network of which two vertices are left: marks what it keeps, and answers the edge that it drops.
fn plan_ending(network: Network, marks: &mut [bool; EDGE_LIMIT]) -> u16
    requires { Last network × (marks.old ≡ no_marks) }
    ensures dropped { result ≡ plan_drop 0 network }
    ensures marks { marks.new ≡ plan_kept 0 network }
{
    let ending = chosen_ending(network);
    mark_two(marks, ending.low, ending.high);
    ending.dropped as u16
}

// The steps of a plan: a column for each part of a step.
#[derive(Clone, Copy)]
pub struct StepColumns {
    pub v: [u16; STEP_LIMIT],
    pub x: [u16; STEP_LIMIT],
    pub y: [u16; STEP_LIMIT],
    pub z: [u16; STEP_LIMIT],
    pub cost: [i64; STEP_LIMIT],
}

impl StepColumns {
    // Columns in which no step stands yet.
    pub fn new() -> StepColumns
        ensures room { StepRoom step_limit result.v result.x result.y result.z result.cost }
        ensures blank { (result.v ≡ replicate step_limit 0) × (result.x ≡ replicate step_limit 0) ×
            (result.y ≡ replicate step_limit 0) × (result.z ≡ replicate step_limit 0) ×
            (result.cost ≡ replicate step_limit (pos 0)) }
    {
        StepColumns {
            v: [0; STEP_LIMIT],
            x: [0; STEP_LIMIT],
            y: [0; STEP_LIMIT],
            z: [0; STEP_LIMIT],
            cost: [0; STEP_LIMIT],
        }
    }

    // Writes a step at a place.
    fn put(&mut self, at: usize, step: Step)
        requires { (step.v < edge_limit) × (step.x < edge_limit) × (step.y < edge_limit) × (step.z < edge_limit) ×
            (at < step_limit) }
        ensures v { self.new.v ≡ set self.old.v at step.v }
        ensures x { self.new.x ≡ set self.old.x at step.x }
        ensures y { self.new.y ≡ set self.old.y at step.y }
        ensures z { self.new.z ≡ set self.old.z at step.z }
        ensures cost { self.new.cost ≡ set self.old.cost at step.cost }
    {
        self.v[at] = step.v as u16;
        self.x[at] = step.x as u16;
        self.y[at] = step.y as u16;
        self.z[at] = step.z as u16;
        self.cost[at] = step.cost;
    }
}

// The plan of a network: its steps go to the columns from a place on, what it keeps is marked, and the edge that its
// ending drops is handed back.
pub fn plan_steps(
    mut network: Network,
    marks: &mut [bool; EDGE_LIMIT],
    at: usize,
    steps: &mut StepColumns,
) -> u16
    requires { Running network × (marks.old ≡ no_marks) × (at + (network.remaining - 2) ≤ step_limit) ×
        StepRoom (at + (network.remaining - 2)) steps.old.v steps.old.x steps.old.y steps.old.z steps.old.cost }
    ensures dropped { result ≡ plan_drop (network.remaining - 2) network }
    ensures marks { marks.new ≡ plan_kept (network.remaining - 2) network }
    ensures v { steps.new.v ≡ planned (λ t. t.v) (network.remaining - 2) network at steps.old.v }
    ensures x { steps.new.x ≡ planned (λ t. t.x) (network.remaining - 2) network at steps.old.x }
    ensures y { steps.new.y ≡ planned (λ t. t.y) (network.remaining - 2) network at steps.old.y }
    ensures z { steps.new.z ≡ planned (λ t. t.z) (network.remaining - 2) network at steps.old.z }
    ensures cost { steps.new.cost ≡
        planned (λ t. t.cost) (network.remaining - 2) network at steps.old.cost }
{
    let remaining = network.remaining;
    if remaining <= 2 {
        return plan_ending(network, marks);
    }
    let step = chosen_step(network);
    steps.put(at, step);
    network = network.split(step.v as u8, step.x, step.y, step.z);
    let dropped = plan_steps(network, marks, at + 1, steps);
    lift_marks(marks, step.x, step.y, step.z);
    dropped
}
