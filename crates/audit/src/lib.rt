// The audit of a list of edges: which vertices it joins, and how many of its edges are bridges.
#![tactic(auto)]

ghost use Rattle.std.specs.Prelude.{◌≡◌};
ghost use Rattle.connection.specs.Searchable.{Searchable};
ghost use Rattle.audit.specs.Answers.{audited};

use base::EDGE_LIMIT;
use bridges::bridge_count;
use connection::{Incidence, count_reached};
use graph::Network;

mod service;

pub use service::audit_list;

// The answers for a list of edges.
#[derive(Clone, Copy, Debug, PartialEq, Eq, Hash)]
pub struct Answers {
    // Whether the listed edges join all vertices.
    pub connected: bool,
    // How many vertices they join to vertex 0, itself included.
    pub reached: usize,
    // How many of them are bridges (document 02: critical cables).
    pub bridges: usize,
}

// Audits a list of a network's edges.
pub fn audit(network: Network, listed: [bool; EDGE_LIMIT]) -> Answers
    requires { Searchable network }
    ensures { result ≡ audited network listed }
{
    let table = Incidence::of(network, listed);
    let reached = count_reached(
        &network.low,
        &network.high,
        &listed,
        network.edges,
        0,
        &table.first,
        &table.next,
    );
    let bridges = bridge_count(network, listed, table);
    Answers {
        connected: reached == network.vertices,
        reached,
        bridges,
    }
}
