// Four edge-disjoint paths between two vertices and two others, by searches along arcs.
#![tactic(auto)]

ghost use Rattle.std.specs.Prelude.{true, ◌↔◌, ◌≡◌};
ghost use Rattle.graph.specs.Sound.{Formed};
ghost use Rattle.flow.specs.Apart.{FourApart};

use graph::Network;

// `search` and `paths` go over arcs; `reach`, `meet`, `send` and `round` over ports, whose lists and clauses differ.
mod arcs; // arcs.rt: the arcs of a network
mod meet; // meet.rt: searches that meet
mod reach; // reach.rt: reaching vertices over ports
mod round; // round.rt: rounds that send one unit more
mod send; // send.rt: sending units along trails
mod paths; // paths.rt: sending units from sources to sinks
mod search; // search.rt: searching along arcs that can still carry something

pub use arcs::{gather, lay, wire};
pub use paths::four_paths;

// Two vertices, perhaps the same one.
#[derive(Clone, Copy)]
pub struct Pair {
    pub first: u8,
    pub second: u8,
}

// Whether every side with the sources in and the sinks out is crossed by at least four edges.
pub fn four_apart(network: Network, sources: Pair, sinks: Pair) -> bool
    requires { Formed network }
    ensures { (result ≡ true) ↔ FourApart network sources sinks }
{
    let ends = arcs::lay(network);
    let ports = arcs::wire(&ends);
    paths::four_paths(&ends, &ports, sources, sinks)
}
