// The search for the vertices that listed edges join to a start vertex.
ghost use Rattle.std.specs.Prelude.{◌≡◌, ◌<◌, length};
ghost use Rattle.base.specs.Limits.{vertex_limit};
ghost use Rattle.connection.specs.Words.{has, lowest};
ghost use Rattle.connection.specs.Search.{Passes, Least, entered, followed, passed, swept, settled};

use crate::edges::Edges;
use crate::words::VertexSet;
use base::VERTEX_LIMIT;

// Two sets of vertices change in place: those reached so far, and those of them that still wait for their visit.
#[derive(Clone, Copy)]
struct Search {
    reached: VertexSet,
    waiting: VertexSet,
}

impl Search {
    // Vertex v is reached, and waits for its visit.
    #[tactic(auto, unfolding(crate::specs::Search::entered))]
    fn enter(&mut self, v: usize)
        requires { v < vertex_limit }
        ensures { self.new ≡ entered self.old v }
    {
        self.reached.add(v);
        self.waiting.add(v);
    }

    // Follows an edge between vertices a and b: if one is reached, the other is.
    #[tactic(auto, unfolding(crate::specs::Search::followed))]
    fn follow(&mut self, a: usize, b: usize)
        requires { (a < vertex_limit) × (b < vertex_limit) }
        ensures { self.new ≡ followed self.old a b }
    {
        match (self.reached.holds(a), self.reached.holds(b)) {
            (true, false) => self.enter(b),
            (false, true) => self.enter(a),
            _ => {}
        }
    }

    // Passes edge e: follows it if it is listed.
    #[tactic(auto, unfolding(crate::specs::Search::passed))]
    fn pass(&mut self, edges: &Edges, e: usize)
        requires { e < edges.now.count }
        ensures { self.new ≡ passed edges.now self.old e }
    {
        if edges.listed[e] {
            self.follow(edges.low[e] as usize, edges.high[e] as usize);
        }
    }

    // Passes each edge once, the last first. If that leaves nothing waiting, no listed edge leaves the reached set.
    fn sweep(&mut self, edges: &Edges)
        ensures { self.new ≡ swept edges.now edges.now.count self.old }
    {
        for e in (0..edges.count).rev() {
            self.pass(edges, e);
        }
    }

    // Visits a vertex: passes the edges whose ends are chained from
    // `from` on. Which edges those are matters to the speed alone.
    fn visit(&mut self, edges: &Edges, next: &[u16], from: usize)
        ensures { Passes edges.now self.old self.new }
    {
        let mut end = from;
        while end < next.len() {
            let e = end / 2;
            if e < edges.count {
                self.pass(edges, e);
            }
            let later = next[end] as usize;
            if later <= end {
                return;
            }
            end = later;
        }
    }

    // The next vertex to visit. If none waits, a sweep looks for more.
    #[tactic(auto, unfolding(crate::specs::Search::settled))]
    fn next_vertex(&mut self, edges: &Edges) -> usize
        ensures value { result ≡ lowest self.new.waiting.words }
        ensures waiting_after { self.new ≡ settled edges.now self.old }
    {
        let v = self.waiting.first();
        if v < VERTEX_LIMIT {
            return v;
        }
        self.sweep(edges);
        self.waiting.first()
    }
}

// The vertices that the listed edges join to the start vertex.
pub fn reach(edges: &Edges, start: usize, first: &[u16], next: &[u16]) -> VertexSet
    requires { (start < vertex_limit) × (length first.now ≡ vertex_limit) }
    ensures { Least edges.now.low.now edges.now.high.now edges.now.listed.now edges.now.count start (has result) }
{
    let mut search = Search {
        reached: VertexSet::new(),
        waiting: VertexSet::new(),
    };
    search.enter(start);
    let mut v = start;
    while v < VERTEX_LIMIT {
        search.waiting.remove(v);
        search.visit(edges, next, first[v] as usize);
        v = search.next_vertex(edges);
    }
    search.reached
}
