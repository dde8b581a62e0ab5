// The depth-first search. At each place it passes the ends at the place's vertex one after another, and goes on at the
// vertex behind an end as soon as it meets one for the first time. `ahead` has the end that is next at each vertex.
ghost use Rattle.std.specs.Prelude.{◌≡◌, ℕ, ◌<◌, ◌≤◌};
ghost use Rattle.base.specs.Limits.{vertex_limit};
ghost use Rattle.connection.specs.Incidence.{end_limit, far_vertex_of};
ghost use Rattle.base.specs.Columns.{at};
ghost use Rattle.forest.specs.Forest.{no_place};
ghost use Rattle.forest.specs.Search.{entered, Progress, Grown, work};

use crate::{Forest, NO_EDGE, NO_PLACE};
use base::VERTEX_LIMIT;
use connection::{END_LIMIT, Incidence};
use graph::Network;

// The vertex at the other end of an end's edge.
#[tactic(auto, unfolding(connection::specs::Incidence::far_vertex_of))]
fn far_vertex(network: &Network, end: usize) -> u8
    requires { end < end_limit }
    ensures { result ≡ far_vertex_of network.now.low network.now.high end }
{
    let e = end / 2;
    if end % 2 == 0 {
        network.high[e]
    } else {
        network.low[e]
    }
}

impl Forest {
    // Vertex v gets the next place, below `from` by an edge.
    #[tactic(auto, unfolding(crate::specs::Search::entered))]
    fn enter(&mut self, v: usize, from: u16, by: u16)
        requires { (v < vertex_limit) × (self.old.count < vertex_limit) }
        ensures { self.new ≡ entered self.old v from by }
    {
        let place = self.count;
        self.number[v] = place as u16;
        self.order[place] = v as u16;
        self.parent[place] = from;
        self.edge[place] = by;
        self.count = place + 1;
    }

    // Passes the next end at a place. A vertex that is met for the first time gets the next place, and the search goes
    // on there. Returns where it goes on.
    fn pass(
        &mut self,
        network: &Network,
        table: &Incidence,
        ahead: &mut [u16; VERTEX_LIMIT],
        place: usize,
    ) -> usize
        requires progress { Progress network.now.low network.now.high table.now.next self.old ahead.old place }
        requires place_lt_no_place { (place < no_place) × (at ahead.old (at self.old.order place) < end_limit) }
        ensures grown { Grown network.now.low network.now.high table.now.next self.old ahead.old place
            self.new ahead.new result }
        ensures ahead_bound { work ahead.new < work ahead.old }
    {
        let v = self.order[place] as usize;
        let end = ahead[v] as usize;
        ahead[v] = table.next[end];
        let met = far_vertex(network, end) as usize;
        if self.number[met] < NO_PLACE {
            return place;
        }
        let below = self.count;
        self.enter(met, place as u16, (end / 2) as u16);
        below
    }

    // Lets a tree grow from a place on, until all its places have passed their ends.
    fn grow(
        &mut self,
        network: &Network,
        table: &Incidence,
        ahead: &mut [u16; VERTEX_LIMIT],
        root: usize,
    )
        requires progress { Progress network.now.low network.now.high table.now.next self.old ahead.old root }
        requires root_lt_no_place { root < no_place }
        ensures { Grown network.now.low network.now.high table.now.next self.old ahead.old root
            self.new ahead.new no_place }
    {
        let mut place = root;
        while place < VERTEX_LIMIT {
            let v = self.order[place] as usize;
            if (ahead[v] as usize) < END_LIMIT {
                place = self.pass(network, table, ahead, place);
            } else {
                place = self.parent[place] as usize;
            }
        }
    }

    // Plants a tree at a vertex, unless an earlier tree holds it.
    fn plant(
        &mut self,
        network: &Network,
        table: &Incidence,
        ahead: &mut [u16; VERTEX_LIMIT],
        v: usize,
    )
        requires progress { Progress network.now.low network.now.high table.now.next self.old ahead.old no_place }
        requires v_lt_vertex_limit { v < vertex_limit }
        ensures grown { Grown network.now.low network.now.high table.now.next self.old ahead.old no_place
            self.new ahead.new no_place }
        ensures v_bound { at self.new.number v < no_place }
    {
        if self.number[v] < NO_PLACE {
            return;
        }
        let root = self.count;
        self.enter(v, NO_PLACE, NO_EDGE);
        self.grow(network, table, ahead, root);
    }

    // Plants trees until each vertex has a place.
    pub fn plant_all(
        &mut self,
        network: &Network,
        table: &Incidence,
        ahead: &mut [u16; VERTEX_LIMIT],
    )
        requires progress { Progress network.now.low network.now.high table.now.next self.old ahead.old no_place }
        requires vertices_le_vertex_limit { network.now.vertices ≤ vertex_limit }
        ensures grown { Grown network.now.low network.now.high table.now.next self.old ahead.old no_place
            self.new ahead.new no_place }
        ensures by_index { (v : ℕ) → v < network.now.vertices → at self.new.number v < no_place }
    {
        for v in 0..network.vertices {
            self.plant(network, table, ahead, v);
        }
    }
}
