// A table of the listed edges' ends at each vertex, which makes a search fast. What a search for the vertices joined to
// one finds does not depend on what stands in it; a depth-first search does.
// Edge e has end 2 e at its low vertex and end 2 e + 1 at its high one. The ends at vertex v are first[v],
// next[first[v]] and so on, in rising order, as far as there are ends.
ghost use Rattle.std.specs.Prelude.{◌<◌, ◌≤◌, ◌≡◌};
ghost use Rattle.base.specs.Limits.{vertex_limit, edge_limit};
ghost use Rattle.connection.specs.Searchable.{Searchable};
ghost use Rattle.connection.specs.Incidence.{end_limit, hooked, chained, incidence};

use crate::edges::Edges;
use base::{EDGE_LIMIT, VERTEX_LIMIT};
use graph::Network;

// How many ends there are, which stands for none, too.
pub const END_LIMIT: usize = 2 * EDGE_LIMIT;

// No end, in the columns: the definition `incidence` has this number, and an Option would double them.
const NO_END: u16 = END_LIMIT as u16;

#[derive(Clone, Copy)]
pub struct Incidence {
    // The first end at each vertex.
    pub first: [u16; VERTEX_LIMIT],
    // The end behind each end.
    pub next: [u16; END_LIMIT],
}

impl Incidence {
    // The table of a list of a network's edges.
    #[tactic(auto, unfolding(crate::specs::Incidence::incidence, crate::specs::Incidence::no_ends))]
    pub fn of(network: Network, listed: [bool; EDGE_LIMIT]) -> Incidence
        requires { Searchable network }
        ensures { result ≡ incidence network listed }
    {
        let mut table = Incidence {
            first: [NO_END; VERTEX_LIMIT],
            next: [NO_END; END_LIMIT],
        };
        table.chain(&Edges {
            low: &network.low,
            high: &network.high,
            listed: &listed,
            count: network.edges,
        });
        table
    }

    // Chains the ends of the listed edges. It goes from the last edge to the first, so that the chains rise.
    fn chain(&mut self, edges: &Edges)
        requires { edges.now.count ≤ edge_limit }
        ensures { self.new ≡ chained edges.now.low.now edges.now.high.now edges.now.listed.now edges.now.count self.old }
    {
        for e in (0..edges.count).rev() {
            if edges.listed[e] {
                self.hook(edges.high[e] as usize, (2 * e + 1) as u16);
                self.hook(edges.low[e] as usize, (2 * e) as u16);
            }
        }
    }

    // The ends at vertex v now begin with this one.
    #[tactic(auto, unfolding(crate::specs::Incidence::hooked))]
    fn hook(&mut self, v: usize, end: u16)
        requires { (v < vertex_limit) × (end < end_limit) }
        ensures { self.new ≡ hooked self.old v end }
    {
        self.next[end as usize] = self.first[v];
        self.first[v] = end;
    }
}
