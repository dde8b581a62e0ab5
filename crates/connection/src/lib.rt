// Connection by listed edges: how many vertices they join to a start vertex, and whether they join all.
#![tactic(auto)]

ghost use Rattle.std.specs.Prelude.{◌≡◌, ◌<◌, length};
ghost use Rattle.base.specs.Limits.{vertex_limit};
ghost use Rattle.graph.specs.declared.Network.{Network};
ghost use Rattle.connection.specs.Connection.{connected, reached_count};
ghost use Rattle.connection.specs.Columns.{Columns};
ghost use Rattle.connection.specs.Searchable.{Searchable};

use base::EDGE_LIMIT;
use edges::Edges;
use graph::Network;

mod edges;
mod ends;
mod search;
mod words;

pub use ends::{END_LIMIT, Incidence};

// How many vertices the listed edges join to the start vertex in any network with these columns of ends, by a search
// over a table. Nothing is copied, so that one table serves many searches.
pub fn count_reached<'a, 'b>(
    low: &'a [u8],
    high: &'a [u8],
    listed: &[bool],
    edges: usize,
    start: usize,
    first: &'b [u16],
    next: &'b [u16],
) -> usize
    requires columns { Columns low.now high.now listed.now edges }
    requires start_lt_vertex_limit { (start < vertex_limit) × (length first.now ≡ vertex_limit) }
    ensures { (g : Network) → Searchable g → g.low ≡ low.now → g.high ≡ high.now
        → g.edges ≡ edges → length g.present ≡ vertex_limit → start < g.vertices
        → result ≡ reached_count g listed.now start }
{
    let edges = Edges {
        low,
        high,
        listed,
        count: edges,
    };
    search::reach(&edges, start, first, next).count()
}

// How many vertices the listed edges join to the start vertex, itself included.
pub fn reached_count(network: Network, listed: [bool; EDGE_LIMIT], start: usize) -> usize
    requires searchable { Searchable network }
    requires start_lt_vertices { start < network.vertices }
    ensures { result ≡ reached_count network listed start }
{
    let table = Incidence::of(network, listed);
    count_reached(
        &network.low,
        &network.high,
        &listed,
        network.edges,
        start,
        &table.first,
        &table.next,
    )
}

// Whether the listed edges join all vertices.
pub fn connected(network: Network, listed: [bool; EDGE_LIMIT]) -> bool
    requires { Searchable network }
    ensures { result ≡ connected network listed }
{
    reached_count(network, listed, 0) == network.vertices
}
