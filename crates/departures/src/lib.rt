// How each edge leaves the network of a chain: by which rule, and at which step; noted while a chain is gone back through.
#![tactic(auto)]

ghost use Rattle.std.specs.Prelude.{◌≡◌, ◌≤◌, ◌<◌};
ghost use Rattle.base.specs.Limits.{edge_limit};
ghost use Rattle.graph.specs.State.{no_marks};
ghost use Rattle.departures.specs.Departures.{keeps};
ghost use Rattle.departures.specs.Columns.{all_last, no_steps, ending_noted, rules_back, steps_back, kept_by};

use base::EDGE_LIMIT;

// The rules, by the numbers of document 02; specs/Departures.antt has the same table. They are no enum, since `keeps`,
// `note_step`, `mark_kept` and `reasons_text::write_reasons` promise for every number that a column may hold.

// The reserved edge, which stays to the end.
pub const RESERVED_EDGE: u8 = 0;

// Kept as y of a step.
pub const KEPT_AS_Y: u8 = 1;

// Kept as x of a step.
pub const KEPT_AS_X: u8 = 2;

// Out as x of a step.
pub const OUT_AS_X: u8 = 3;

// Kept at the ending.
pub const KEPT_LAST: u8 = 4;

// Dropped at the ending.
pub const DROPPED_LAST: u8 = 5;

// The number of a chain's first step.
pub const FIRST_STEP: usize = 1;

// Whether an edge that leaves by a rule is kept.
#[tactic(auto, unfolding(crate::specs::Departures::keeps))]
pub fn keeps(rule: u8) -> bool
    ensures { result ≡ keeps rule }
{
    matches!(rule, KEPT_AS_Y | KEPT_AS_X | KEPT_LAST)
}

// Notes the ending: it drops an edge, and the reserved edge has stayed.
pub fn note_ending(rules: &mut [u8; EDGE_LIMIT], reserved: usize, dropped: usize)
    requires { (reserved < edge_limit) × (dropped < edge_limit) }
    ensures { rules.new ≡ ending_noted reserved dropped rules.old }
{
    rules[dropped] = DROPPED_LAST;
    rules[reserved] = RESERVED_EDGE;
}

// Notes the rules of a step, going back: y is kept, and x exactly if z is not.
fn note_rules(rules: &mut [u8; EDGE_LIMIT], x: usize, y: usize, z: usize)
    requires { (x < edge_limit) × (y < edge_limit) × (z < edge_limit) }
    ensures { rules.new ≡ rules_back x y z rules.old }
{
    let z_kept = keeps(rules[z]);
    rules[x] = if z_kept { OUT_AS_X } else { KEPT_AS_X };
    rules[y] = KEPT_AS_Y;
}

// Notes a step, going back: by which rules x and y leave, and that it is at this step. The columns are lent one by one,
// for callers that hold them apart; `Noted` holds them together.
pub fn note_step(
    rules: &mut [u8; EDGE_LIMIT],
    steps: &mut [u16; EDGE_LIMIT],
    x: usize,
    y: usize,
    z: usize,
    number: u16,
)
    requires { (x < edge_limit) × (y < edge_limit) × (z < edge_limit) }
    ensures rules { rules.new ≡ rules_back x y z rules.old }
    ensures steps { steps.new ≡ steps_back x y number steps.old }
{
    note_rules(rules, x, y, z);
    steps[x] = number;
    steps[y] = number;
}

// Marks the edges below a number that leave by a rule that keeps them, where none is marked.
pub fn mark_kept(rules: &[u8; EDGE_LIMIT], edges: usize, marks: &mut [bool; EDGE_LIMIT])
    requires { (edges ≤ edge_limit) × (marks.old ≡ no_marks) }
    ensures { marks.new ≡ kept_by edges rules.now }
{
    for edge in 0..edges {
        marks[edge] = keeps(rules[edge]);
    }
}

// What is noted of each edge: the rule by which it leaves, and the step.
#[derive(Clone, Copy)]
pub struct Noted {
    pub rules: [u8; EDGE_LIMIT],
    pub steps: [u16; EDGE_LIMIT],
}

impl Noted {
    // Before the ending every edge is kept there, and at no step.
    pub fn new() -> Noted
        ensures rules { result.rules ≡ all_last }
        ensures steps { result.steps ≡ no_steps }
    {
        Noted {
            rules: [KEPT_LAST; EDGE_LIMIT],
            steps: [0; EDGE_LIMIT],
        }
    }

    // Notes the ending at the rules.
    pub fn note_ending(&mut self, reserved: usize, dropped: usize)
        requires { (reserved < edge_limit) × (dropped < edge_limit) }
        ensures rules { self.new.rules ≡ ending_noted reserved dropped self.old.rules }
        ensures steps { self.new.steps ≡ self.old.steps }
    {
        note_ending(&mut self.rules, reserved, dropped);
    }

    // Notes a step at the rules and the steps, going back.
    pub fn note_step(&mut self, x: usize, y: usize, z: usize, number: u16)
        requires { (x < edge_limit) × (y < edge_limit) × (z < edge_limit) }
        ensures rules { self.new.rules ≡ rules_back x y z self.old.rules }
        ensures steps { self.new.steps ≡ steps_back x y number self.old.steps }
    {
        note_step(&mut self.rules, &mut self.steps, x, y, z, number);
    }

    // Marks what the noted rules keep of the edges below a number, where none is marked.
    pub fn mark_kept(&self, edges: usize, marks: &mut [bool; EDGE_LIMIT])
        requires { (edges ≤ edge_limit) × (marks.old ≡ no_marks) }
        ensures { marks.new ≡ kept_by edges self.now.rules }
    {
        mark_kept(&self.rules, edges, marks);
    }
}
