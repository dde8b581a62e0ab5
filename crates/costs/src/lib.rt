// The costs of sets of edges.
#![tactic(auto)]

ghost use Rattle.std.specs.Prelude.{◌≡◌, ◌≤◌, ◌<◌};
ghost use Rattle.graph.specs.Network.{kept_cost, all_but_reserved};
ghost use Rattle.graph.specs.Sound.{Light};
ghost use Rattle.base.specs.Limits.{edge_limit};

use base::EDGE_LIMIT;
use graph::{Kept, Network};

// The cost of the kept edges.
pub fn kept_cost(network: Network, kept: Kept) -> i64
    requires { Light network × (network.edges ≤ edge_limit) }
    ensures { result ≡ kept_cost network kept.marks }
{
    let mut sum = 0;
    for e in 0..network.edges {
        if kept.marks[e] {
            sum += network.cost[e];
        }
    }
    sum
}

// The cost of all edges but the reserved one.
pub fn all_but_reserved(network: Network) -> i64
    requires { Light network × (network.edges ≤ edge_limit) × (network.reserved < edge_limit) }
    ensures { result ≡ all_but_reserved network }
{
    let mut marks = [true; EDGE_LIMIT];
    marks[network.reserved] = false;
    kept_cost(network, Kept { marks })
}
