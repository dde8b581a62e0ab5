// The four ports of a vertex, sorted by their edges, and the port of an edge.
ghost use Rattle.std.specs.Prelude.{◌⊎◌, ◌≡◌, ◌≤◌, ◌<◌};
ghost use Rattle.base.specs.Columns.{at};
ghost use Rattle.ports.specs.Ports.{port_limit, vertex_of};
ghost use Rattle.ports.specs.Stars.{Around, Trio, HasEdge};

use super::{PORT_LIMIT, PORTS};

// A port, and the three others of its vertex by rising edges.
#[derive(Clone, Copy)]
pub struct Star {
    pub reserved: usize,
    pub first: usize,
    pub second: usize,
    pub third: usize,
}

// Two ports, the one of the lower edge first.
fn in_order(edge: &[u16; PORT_LIMIT], a: usize, b: usize) -> (usize, usize)
    requires { (a < port_limit) × (b < port_limit) }
    ensures order { at edge.now result.0 ≤ at edge.now result.1 }
    ensures same { ((result.0 ≡ a) × (result.1 ≡ b)) ⊎ ((result.0 ≡ b) × (result.1 ≡ a)) }
{
    if edge[b] < edge[a] { (b, a) } else { (a, b) }
}

// The star of a port and three others, which are sorted; where two have the same edge, the later one comes first.
fn sorted(edge: &[u16; PORT_LIMIT], reserved: usize, a: usize, b: usize, c: usize) -> Star
    requires { Trio reserved a b c }
    ensures { (result.reserved ≡ reserved) × Around edge.now result }
{
    let (low, high) = in_order(edge, c, b);
    let (middle, third) = in_order(edge, high, a);
    let (first, second) = in_order(edge, low, middle);
    Star {
        reserved,
        first,
        second,
        third,
    }
}

// A port and the three others of its vertex.
pub fn star_at(edge: &[u16; PORT_LIMIT], port: usize) -> Star
    requires { port < port_limit }
    ensures { (result.reserved ≡ port) × Around edge.now result }
{
    let turn = port % PORTS;
    let start = port - turn;
    let a = start + (turn + 1) % PORTS;
    let b = start + (turn + 2) % PORTS;
    let c = start + (turn + 3) % PORTS;
    sorted(edge, port, a, b, c)
}

// The port of a vertex where an edge is plugged in.
pub fn port_at(edge: &[u16; PORT_LIMIT], vertex: u8, e: u16) -> usize
    requires { HasEdge edge.now vertex e }
    ensures { (vertex_of result ≡ vertex) × (at edge.now result ≡ e) }
{
    let start = PORTS * vertex as usize;
    for port in start..start + PORTS {
        if edge[port] == e {
            return port;
        }
    }
    start
}
