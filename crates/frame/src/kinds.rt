// The frames of each kind, with their fields by name.
ghost use Rattle.std.specs.Prelude.{◌≡◌, ◌*◌, ◌^◌, ◌<◌};
ghost use Rattle.std.specs.Int.Signed.{mag};
ghost use Rattle.frame.specs.Table.{EDGE, STEP, COSTS, SPAN};
ghost use Rattle.frame.specs.Line.{Fits};
ghost use Rattle.frame.specs.Kinds.{head_of, of_head, edge_of, of_edge, cost_digits, step_of, of_step, dropped_of};
ghost use Rattle.frame.specs.Kinds.{of_dropped, kept_of, of_kept, costs_of, of_costs, table_head_of, span_of, refusal_in};
ghost use Rattle.frame.specs.Kinds.{of_reason, of_refusal};

use super::line::{ABSENT, Fields};
use super::table::{Kind, digits_of};
use digits::{signed_of, unsigned_of};

// Kind 01: how many vertices a network has, and its reserved edge.
#[derive(Clone, Copy)]
pub struct Head {
    pub vertices: u64,
    pub reserved: u64,
}

// Kind 02: an edge, its two ends and its cost.
#[derive(Clone, Copy)]
pub struct Edge {
    pub number: u64,
    pub lower: u64,
    pub higher: u64,
    pub cost: i64,
}

// Kind 03: a step, at v with x and y; z, and z's new cost.
#[derive(Clone, Copy)]
pub struct Step {
    pub v: u64,
    pub x: u64,
    pub y: u64,
    pub z: u64,
    pub cost: i64,
}

// Kind 04: the edge that the ending drops.
#[derive(Clone, Copy)]
pub struct Dropped {
    pub edge: u64,
}

// Kind 05: a kept edge.
#[derive(Clone, Copy)]
pub struct Kept {
    pub edge: u64,
}

// Kind 06: the cost of the kept edges, and of all edges but the reserved one.
#[derive(Clone, Copy)]
pub struct Costs {
    pub kept: i64,
    pub unreserved: i64,
}

// Kind 08: how many vertices a table's network has, its reserved edge, and how many spans the table has.
#[derive(Clone, Copy)]
pub struct TableHead {
    pub vertices: u64,
    pub reserved: u64,
    pub spans: u64,
}

// Kind 09: a span, its two ends, its doubled weight and its cost.
#[derive(Clone, Copy)]
pub struct Span {
    pub lower: u64,
    pub higher: u64,
    pub weight: u64,
    pub cost: i64,
}

// Kind 0a: an edge, the rule by which it stayed or left, and the step.
#[derive(Clone, Copy)]
pub struct Reason {
    pub edge: u64,
    pub rule: u64,
    pub step: u64,
}

// Kind 0f: a refusal.
#[derive(Clone, Copy)]
pub struct Refusal {
    pub number: u64,
}

// The places of signed fields among a frame's fields.
const EDGE_COST: usize = 3;

const STEP_COST: usize = 4;

const COSTS_KEPT: usize = 0;

const COSTS_UNRESERVED: usize = 1;

const SPAN_COST: usize = 3;

// Of and into a frame's fields; not as From, since kinds with a signed field ask that it fits, and From asks nothing.
impl Head {
    pub fn of(f: Fields) -> Self
        ensures { result ≡ head_of f }
    {
        Head {
            vertices: f.first,
            reserved: f.second,
        }
    }

    pub fn fields(self) -> Fields
        ensures { result ≡ of_head self }
    {
        Fields {
            first: self.vertices,
            second: self.reserved,
            ..ABSENT
        }
    }
}

impl Edge {
    pub fn of(f: Fields) -> Self
        requires { Fits EDGE f }
        ensures { result ≡ edge_of f }
    {
        Edge {
            number: f.first,
            lower: f.second,
            higher: f.third,
            cost: signed_of(f.fourth, digits_of(Kind::Edge, EDGE_COST)),
        }
    }

    pub fn fields(self) -> Fields
        requires { 2 * mag self.cost < 16 ^ cost_digits }
        ensures { result ≡ of_edge self }
    {
        Fields {
            first: self.number,
            second: self.lower,
            third: self.higher,
            fourth: unsigned_of(self.cost, digits_of(Kind::Edge, EDGE_COST)),
            ..ABSENT
        }
    }
}

impl Step {
    pub fn of(f: Fields) -> Self
        requires { Fits STEP f }
        ensures { result ≡ step_of f }
    {
        Step {
            v: f.first,
            x: f.second,
            y: f.third,
            z: f.fourth,
            cost: signed_of(f.fifth, digits_of(Kind::Step, STEP_COST)),
        }
    }

    pub fn fields(self) -> Fields
        ensures { result ≡ of_step self }
    {
        Fields {
            first: self.v,
            second: self.x,
            third: self.y,
            fourth: self.z,
            fifth: unsigned_of(self.cost, digits_of(Kind::Step, STEP_COST)),
        }
    }
}

impl Dropped {
    pub fn of(f: Fields) -> Self
        ensures { result ≡ dropped_of f }
    {
        Dropped { edge: f.first }
    }

    pub fn fields(self) -> Fields
        ensures { result ≡ of_dropped self }
    {
        Fields {
            first: self.edge,
            ..ABSENT
        }
    }
}

impl Kept {
    pub fn of(f: Fields) -> Self
        ensures { result ≡ kept_of f }
    {
        Kept { edge: f.first }
    }

    pub fn fields(self) -> Fields
        ensures { result ≡ of_kept self }
    {
        Fields {
            first: self.edge,
            ..ABSENT
        }
    }
}

impl Costs {
    pub fn of(f: Fields) -> Self
        requires { Fits COSTS f }
        ensures { result ≡ costs_of f }
    {
        Costs {
            kept: signed_of(f.first, digits_of(Kind::Costs, COSTS_KEPT)),
            unreserved: signed_of(f.second, digits_of(Kind::Costs, COSTS_UNRESERVED)),
        }
    }

    pub fn fields(self) -> Fields
        ensures { result ≡ of_costs self }
    {
        Fields {
            first: unsigned_of(self.kept, digits_of(Kind::Costs, COSTS_KEPT)),
            second: unsigned_of(self.unreserved, digits_of(Kind::Costs, COSTS_UNRESERVED)),
            ..ABSENT
        }
    }
}

impl TableHead {
    pub fn of(f: Fields) -> Self
        ensures { result ≡ table_head_of f }
    {
        TableHead {
            vertices: f.first,
            reserved: f.second,
            spans: f.third,
        }
    }
}

impl Span {
    pub fn of(f: Fields) -> Self
        requires { Fits SPAN f }
        ensures { result ≡ span_of f }
    {
        Span {
            lower: f.first,
            higher: f.second,
            weight: f.third,
            cost: signed_of(f.fourth, digits_of(Kind::Span, SPAN_COST)),
        }
    }
}

impl Reason {
    pub fn fields(self) -> Fields
        ensures { result ≡ of_reason self }
    {
        Fields {
            first: self.edge,
            second: self.rule,
            third: self.step,
            ..ABSENT
        }
    }
}

impl Refusal {
    pub fn of(f: Fields) -> Self
        ensures { result ≡ refusal_in f }
    {
        Refusal { number: f.first }
    }

    pub fn fields(self) -> Fields
        ensures { result ≡ of_refusal self }
    {
        Fields {
            first: self.number,
            ..ABSENT
        }
    }
}
