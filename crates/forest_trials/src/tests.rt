// Trees are planted until each vertex has a place: what stands in the columns, worked out by hand.
ghost use Rattle.connection.specs.Searchable.{Searchable};

use base::{EDGE_LIMIT, VERTEX_LIMIT};
use connection::Incidence;
use forest::{Forest, NO_PLACE};
use graph::Network;

// How many vertices there are, and how many edges; proofs/Ends.antt has the same number.
const VERTICES: usize = 5;

// No edge leads to a root.
const NO_EDGE: u16 = EDGE_LIMIT as u16;

// Edge e joins vertex e and the one that is two further around.
fn pentagram() -> Network
    ensures { Searchable result }
{
    let mut low = [0; EDGE_LIMIT];
    let mut high = [0; EDGE_LIMIT];
    for e in 0..VERTICES {
        low[e] = e as u8;
        high[e] = ((e + 2) % VERTICES) as u8;
    }
    Network {
        low,
        high,
        cost: [0; EDGE_LIMIT],
        present: [true; VERTEX_LIMIT],
        reserved: 0,
        edges: VERTICES,
        vertices: VERTICES,
        remaining: VERTICES,
    }
}

#[test]
fn plants_a_tree_for_each_part(rt: HostRuntime) {
    let network = pentagram();
    for (listed, number, order, parent, edge) in [
        (
            [true, true, true, true, true],
            [0, 3, 1, 4, 2],
            [0, 2, 4, 1, 3],
            [NO_PLACE, 0, 1, 2, 3],
            [NO_EDGE, 0, 2, 4, 1],
        ),
        (
            [true, true, true, true, false],
            [0, 4, 1, 3, 2],
            [0, 2, 4, 3, 1],
            [NO_PLACE, 0, 1, 0, 3],
            [NO_EDGE, 0, 2, 3, 1],
        ),
        (
            [true, true, true, false, false],
            [0, 3, 1, 4, 2],
            [0, 2, 4, 1, 3],
            [NO_PLACE, 0, 1, NO_PLACE, 3],
            [NO_EDGE, 0, 2, NO_EDGE, 1],
        ),
    ] {
        let mut marks = [false; EDGE_LIMIT];
        marks[..VERTICES].copy_from_slice(&listed);
        let table = Incidence::of(network, marks);
        let mut ahead = table.first;
        let mut forest = Forest {
            number: [NO_PLACE; VERTEX_LIMIT],
            order: [0; VERTEX_LIMIT],
            parent: [NO_PLACE; VERTEX_LIMIT],
            edge: [NO_EDGE; VERTEX_LIMIT],
            count: 0,
        };
        forest.plant_all(&network, &table, &mut ahead);
        assert_eq!(rt; forest.count, VERTICES, "count of {listed:?}");
        assert_eq!(rt;
            forest.number[..VERTICES],
            number[..],
            "places of {listed:?}"
        );
        assert_eq!(rt;
            forest.order[..VERTICES],
            order[..],
            "vertices of {listed:?}"
        );
        assert_eq!(rt;
            forest.parent[..VERTICES],
            parent[..],
            "places above of {listed:?}"
        );
        assert_eq!(rt; forest.edge[..VERTICES], edge[..], "edges of {listed:?}");
    }
}
