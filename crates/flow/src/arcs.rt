// The arcs of a network: where each starts, and which start at a vertex.
ghost use Rattle.std.specs.Prelude.{length, ◌≡◌, ◌≤◌, ◌<◌};
ghost use Rattle.base.specs.Limits.{edge_limit};
ghost use Rattle.graph.specs.Sound.{Formed};
ghost use Rattle.flow.specs.Arcs.{arc_limit, Laid, moved, MovedTo};
ghost use Rattle.flow.specs.Ports.{wiring, plugged, wired};

use base::{EDGE_LIMIT, VERTEX_LIMIT};
use graph::Network;

// An edge has two arcs, one each way, and a vertex four ports.
pub const ARC_LIMIT: usize = 2 * EDGE_LIMIT;

pub const PORTS: usize = 4;

// The vertex where each arc starts: arc e at the low end of edge e, and arc e + EDGE_LIMIT at its high end.
pub fn lay(network: Network) -> [u8; ARC_LIMIT]
    requires { Formed network }
    ensures { Laid network result }
{
    let mut ends = [0u8; ARC_LIMIT];
    for edge in 0..network.edges {
        ends[edge] = network.low[edge];
        ends[edge + EDGE_LIMIT] = network.high[edge];
    }
    ends
}

// Gives an arc the next port of the vertex where it starts, if one is left. A loop leads nowhere and gets none.
fn plug(
    ends: &[u8; ARC_LIMIT],
    ports: &mut [u16; ARC_LIMIT],
    used: &mut [usize; VERTEX_LIMIT],
    arc: usize,
)
    requires { arc < arc_limit }
    ensures { wiring ports.new used.new ≡
        plugged ends.now (wiring ports.old used.old) arc }
{
    let from = ends[arc];
    if from == ends[(arc + EDGE_LIMIT) % ARC_LIMIT] {
        return;
    }
    let vertex = from as usize;
    let port = used[vertex];
    if PORTS <= port {
        return;
    }
    ports[PORTS * vertex + port] = arc as u16;
    used[vertex] = port + 1;
}

// Up to four arcs that start at each vertex, each at a port of its own.
// This is a hint for the search, which stays right whatever stands here.
pub fn wire(ends: &[u8]) -> [u16; ARC_LIMIT]
    requires { length ends.now ≡ arc_limit }
    ensures { result ≡ (wired ends.now arc_limit).ports }
{
    let ends: &[u8; ARC_LIMIT] = ends.as_array().unwrap();
    let mut ports = [0u16; ARC_LIMIT];
    let mut used = [0usize; VERTEX_LIMIT];
    for arc in 0..ARC_LIMIT {
        plug(ends, &mut ports, &mut used, arc);
    }
    ports
}

// A vertex, once what is at one vertex is moved to another.
fn moved_from(vertex: u8, from: u8, to: u8) -> u8
    ensures { result ≡ moved from to vertex }
{
    if vertex == from { to } else { vertex }
}

// Moves the ends of the first edges that are at one vertex to another.
pub fn gather(ends: &mut [u8], edges: usize, from: u8, to: u8)
    requires { (length ends.old ≡ arc_limit) × (edges ≤ edge_limit) }
    ensures { MovedTo from to edges ends.old ends.new }
{
    for edge in 0..edges {
        ends[edge] = moved_from(ends[edge], from, to);
        ends[edge + EDGE_LIMIT] = moved_from(ends[edge + EDGE_LIMIT], from, to);
    }
}
