// Bridges of a list of edges (document 02: critical cables), counted by one depth-first search.
#![tactic(auto)]

ghost use Rattle.std.specs.Prelude.{◌≡◌};
ghost use Rattle.connection.specs.Searchable.{Searchable};
ghost use Rattle.connection.specs.Incidence.{incidence};
ghost use Rattle.bridges.specs.Bridge.{bridge_count};

use base::{EDGE_LIMIT, VERTEX_LIMIT};
use connection::Incidence;
use forest::Forest;
use graph::Network;

mod points;

// How many of the listed edges are bridges, by the table of their ends.
pub fn bridge_count(network: Network, listed: [bool; EDGE_LIMIT], table: Incidence) -> usize
    requires searchable { Searchable network }
    requires table_value { table ≡ incidence network listed }
    ensures { result ≡ bridge_count network listed }
{
    let forest = Forest::of(network, table);
    let mut low_points = [0u16; VERTEX_LIMIT];
    points::begin(&mut low_points);
    points::note_all(&network, &forest, &listed, &mut low_points);
    points::raise_all(&forest, &mut low_points);
    points::count_found(&network, &forest, &listed, &low_points)
}
