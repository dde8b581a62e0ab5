// Wiring: every end of a network's edges is plugged in at a port of its vertex.
ghost use Rattle.std.specs.Prelude.{◌≡◌, ◌+◌, ◌*◌, ◌<◌, set};
ghost use Rattle.base.specs.Columns.{at};
ghost use Rattle.ports.specs.Ports.{ports_each, port_limit, unwired, plugged, labelled, WiredAs};
ghost use Rattle.ports.specs.Wiring.{Pluggable};

use super::{PORT_LIMIT, PORTS};
use base::VERTEX_LIMIT;
use graph::Network;

// The port where the other end of its edge is, and its edge, for each port. The definition `WiredAs` names these
// columns.
#[derive(Clone, Copy)]
pub struct Ports {
    pub mate: [u16; PORT_LIMIT],
    pub edge: [u16; PORT_LIMIT],
}

// Every port as its own mate: nothing is plugged in.
fn unwired() -> [u16; PORT_LIMIT]
    ensures { result ≡ unwired }
{
    let mut mates = [0; PORT_LIMIT];
    for (port, mate) in mates.iter_mut().enumerate() {
        *mate = port as u16;
    }
    mates
}

// The next port of a vertex, of whose ports so many are used.
fn next_port(used: &mut [u8; VERTEX_LIMIT], vertex: u8) -> usize
    requires { at used.old vertex < ports_each }
    ensures port { result ≡ ports_each * vertex + at used.old vertex }
    ensures used { used.new ≡
        set used.old vertex (at used.old vertex + 1) }
{
    let i = vertex as usize;
    let count = used[i];
    used[i] += 1;
    PORTS * i + count as usize
}

// Plugs the two ends of an edge in at two ports.
pub fn plug(mate: &mut [u16; PORT_LIMIT], edge: &mut [u16; PORT_LIMIT], a: usize, b: usize, e: u16)
    requires { (a < port_limit) × (b < port_limit) }
    ensures mate { mate.new ≡ plugged mate.old a b }
    ensures edge { edge.new ≡ labelled edge.old a b e }
{
    mate[a] = b as u16;
    mate[b] = a as u16;
    edge[a] = e;
    edge[b] = e;
}

impl Ports {
    // The ports of a network whose vertices have degree 4: its edges take them in turn.
    pub fn of(network: Network) -> Ports
        requires { Pluggable network }
        ensures { WiredAs network result.mate result.edge }
    {
        let mut mate = unwired();
        let mut edge = [0; PORT_LIMIT];
        let mut used = [0; VERTEX_LIMIT];
        for e in 0..network.edges {
            let a = next_port(&mut used, network.low[e]);
            let b = next_port(&mut used, network.high[e]);
            plug(&mut mate, &mut edge, a, b, e as u16);
        }
        Ports { mate, edge }
    }
}
