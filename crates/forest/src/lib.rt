// A depth-first forest of the listed edges: each listed edge joins a vertex to one of its ancestors or descendants.
#![tactic(auto)]

ghost use Rattle.std.specs.Prelude.{Bool, List, ◌≡◌};
ghost use Rattle.connection.specs.Searchable.{Searchable};
ghost use Rattle.connection.specs.Incidence.{incidence};
ghost use Rattle.forest.specs.Forest.{DepthFirst};

use base::{EDGE_LIMIT, VERTEX_LIMIT};
use connection::Incidence;
use graph::Network;

mod search;

// No place, and no edge, in the columns: the definition `DepthFirst` has these numbers, and an Option would double
// them.
pub const NO_PLACE: u16 = VERTEX_LIMIT as u16;

const NO_EDGE: u16 = EDGE_LIMIT as u16;

// Vertices have places in the order in which the search meets them.
#[derive(Clone, Copy)]
pub struct Forest {
    // The place of each vertex.
    pub number: [u16; VERTEX_LIMIT],
    // The vertex at each place.
    pub order: [u16; VERTEX_LIMIT],
    // The place above each place, NO_PLACE above a root.
    pub parent: [u16; VERTEX_LIMIT],
    // The edge that leads there from above, NO_EDGE for a root.
    pub edge: [u16; VERTEX_LIMIT],
    // How many places there are.
    pub count: usize,
}

impl Forest {
    // The forest of the list of a network's edges that a table is of.
    pub fn of(network: Network, table: Incidence) -> Forest
        requires searchable { Searchable network }
        requires table_value { (K : List Bool) × (table ≡ incidence network K) }
        ensures { (K : List Bool) → table ≡ incidence network K
            → DepthFirst network.low network.high K network.edges network.vertices result }
    {
        let mut forest = Forest {
            number: [NO_PLACE; VERTEX_LIMIT],
            order: [0; VERTEX_LIMIT],
            parent: [NO_PLACE; VERTEX_LIMIT],
            edge: [NO_EDGE; VERTEX_LIMIT],
            count: 0,
        };
        let mut ahead = table.first;
        forest.plant_all(&network, &table, &mut ahead);
        forest
    }
}
