// The state of a network, and what a step does to it.
#![tactic(auto)]

use base::{EDGE_LIMIT, VERTEX_LIMIT};

mod kept;

ghost use Rattle.std.specs.Prelude.{◌≡◌, ◌<◌};
ghost use Rattle.graph.specs.Network.{far};
ghost use Rattle.graph.specs.Split.{split};
ghost use Rattle.base.specs.Limits.{edge_limit};
ghost use Rattle.graph.specs.State.{Splittable};
ghost use Rattle.graph.specs.declared.Network.{Network};

pub use kept::{Kept, lift_marks};

// A network by value: edge e joins low[e] and high[e] at a working cost.
// A retired edge is a loop at the vertex that left, at cost 0, so it crosses no cut and costs nothing.
// The columns stand apart, as the definitions and theorems name them.
#[derive(Clone, Copy)]
pub struct Network {
    pub low: [u8; EDGE_LIMIT],
    pub high: [u8; EDGE_LIMIT],
    pub cost: [i64; EDGE_LIMIT],
    pub present: [bool; VERTEX_LIMIT],
    pub reserved: usize,
    pub edges: usize,
    pub vertices: usize,
    pub remaining: usize,
}

// A step of a chain: v leaves, x and y retire, and z, the third partner, has this cost afterwards.
#[derive(Clone, Copy)]
pub struct Step {
    pub v: usize,
    pub x: usize,
    pub y: usize,
    pub z: usize,
    pub cost: i64,
}

// The far end, seen from v, of edge e of any network with these columns of ends.
pub fn far_end<'a>(low: &'a [u8; EDGE_LIMIT], high: &'a [u8; EDGE_LIMIT], e: usize, v: u8) -> u8
    requires { e < edge_limit }
    ensures { (g : Network) → g.low ≡ low.now → g.high ≡ high.now → result ≡ far g v e }
{
    let end = low[e];
    if end == v { high[e] } else { end }
}

impl Network {
    // Splits off v with partner x, the other two being y and z, and hands the new state back.
    pub fn split(mut self, v: u8, x: usize, y: usize, z: usize) -> Network
        requires { Splittable self x y z }
        ensures { result ≡ split self v x y z }
    {
        let reserved = self.reserved;
        let u = far_end(&self.low, &self.high, reserved, v);
        let far_x = far_end(&self.low, &self.high, x, v);
        let far_y = far_end(&self.low, &self.high, y, v);
        let far_z = far_end(&self.low, &self.high, z, v);
        self.low[reserved] = u;
        self.high[reserved] = far_x;
        self.low[z] = far_y;
        self.high[z] = far_z;
        self.low[x] = v;
        self.high[x] = v;
        self.low[y] = v;
        self.high[y] = v;
        let z_cost = self.cost[z];
        let x_cost = self.cost[x];
        self.cost[z] = z_cost - x_cost;
        self.cost[x] = 0;
        self.cost[y] = 0;
        self.present[v as usize] = false;
        let remaining = self.remaining;
        self.remaining = remaining - 1;
        self
    }
}
