// Searching from the sources along arcs that can still carry something, until a sink is reached.
ghost use Rattle.std.specs.Prelude.{◌<◌, ◌≤◌};
ghost use Rattle.base.specs.Limits.{vertex_limit};
ghost use Rattle.flow.specs.Arcs.{arc_limit};
ghost use Rattle.flow.specs.Search.{Tree, Grown, Relaxed, Swept, Searched};

use crate::Pair;
use crate::arcs::{ARC_LIMIT, PORTS};
use base::{EDGE_LIMIT, VERTEX_LIMIT};

// What a search has found: the number of each vertex that is reached, the arc by which each number was reached, and the
// last number given.
#[derive(Drop)]
pub struct Search {
    pub order: [u16; VERTEX_LIMIT],
    pub trail: [u16; VERTEX_LIMIT + 1],
    pub clock: usize,
}

impl Search {
    // Tries one arc: where it can carry something from a vertex that is reached, its far end is reached too.
    // Most arcs lead to a vertex that is reached already, so that is tested first.
    fn relax(&mut self, ends: &[u8; ARC_LIMIT], residual: &[u8; ARC_LIMIT], arc: usize)
        requires arc_lt_arc_limit { arc < arc_limit }
        requires tree { Tree ends.now residual.now self.old }
        ensures { Relaxed ends.now residual.now arc self.old self.new }
    {
        let to = ends[(arc + EDGE_LIMIT) % ARC_LIMIT] as usize;
        if self.order[to] != 0 {
            return;
        }
        if residual[arc] == 0 {
            return;
        }
        let from = ends[arc] as usize;
        if self.order[from] == 0 {
            return;
        }
        let next = self.clock + 1;
        self.order[to] = next as u16;
        self.trail[next] = arc as u16;
        self.clock = next;
    }

    // Tries every arc once. If that reaches nothing new, no arc leads on.
    fn sweep(&mut self, ends: &[u8; ARC_LIMIT], residual: &[u8; ARC_LIMIT])
        requires { Tree ends.now residual.now self.old }
        ensures { Swept ends.now residual.now arc_limit self.old self.new }
    {
        for arc in 0..ARC_LIMIT {
            self.relax(ends, residual, arc);
        }
    }

    // Tries the arcs that `ports` has for a vertex. Which these are matters to the speed alone.
    fn visit(
        &mut self,
        ends: &[u8; ARC_LIMIT],
        residual: &[u8; ARC_LIMIT],
        ports: &[u16; ARC_LIMIT],
        vertex: u8,
    )
        requires { Tree ends.now residual.now self.old }
        ensures { Grown ends.now residual.now self.old self.new }
    {
        let first = PORTS * (vertex as usize);
        for arc in &ports[first..first + PORTS] {
            self.relax(ends, residual, *arc as usize % ARC_LIMIT);
        }
    }

    // The vertex to visit under a number: the sources under 0 and 1,
    // and from 2 on the vertex that was reached by that number.
    fn numbered(&self, ends: &[u8; ARC_LIMIT], sources: Pair, number: usize) -> u8
        requires { number ≤ vertex_limit }
    {
        if number == 0 {
            return sources.first;
        }
        if number == 1 {
            return sources.second;
        }
        let arc = self.trail[number] as usize;
        ends[(arc + EDGE_LIMIT) % ARC_LIMIT]
    }

    // Visits the vertices as they are reached, the sources first, until a sink is among them or no arc leads on.
    // Returns the sink that it reached, if any.
    pub fn run(
        &mut self,
        ends: &[u8; ARC_LIMIT],
        residual: &[u8; ARC_LIMIT],
        ports: &[u16; ARC_LIMIT],
        sources: Pair,
        sinks: Pair,
    ) -> Option<usize>
        requires { Tree ends.now residual.now self.old }
        ensures { Searched ends.now residual.now sinks self.old self.new result }
    {
        let first = sinks.first as usize;
        let second = sinks.second as usize;
        // The queue grows while it is read, so no range has its turns.
        let mut next = 0;
        loop {
            if self.order[first] != 0 {
                return Some(first);
            }
            if self.order[second] != 0 {
                return Some(second);
            }
            if next <= self.clock {
                let vertex = self.numbered(ends, sources, next);
                self.visit(ends, residual, ports, vertex);
                next += 1;
            } else {
                let last = self.clock;
                self.sweep(ends, residual);
                if self.clock == last {
                    return None;
                }
            }
        }
    }
}
