// Reaching vertices over ports that can still carry something, the way that units go or back.
ghost use Rattle.std.specs.Prelude.{◌≡◌, ◌≤◌, ◌<◌};
ghost use Rattle.base.specs.Columns.{at};
ghost use Rattle.base.specs.Limits.{vertex_limit};
ghost use Rattle.ports.specs.Ports.{port_limit, vertex_of, far_vertex, Mated};
ghost use Rattle.flow.specs.Reach.{Tree, Apart, Comes};

use base::VERTEX_LIMIT;
use ports::{PORT_LIMIT, PORTS};
use std::ops::ControlFlow;

// What a search has found: the number of each vertex that is reached, the port by which each number was reached, and
// the last number given. It goes the way that units go, or back: a field says so, as a const parameter is a number in
// proofs.
#[derive(Drop)]
pub struct Reach {
    pub back: bool,
    pub order: [u16; VERTEX_LIMIT],
    pub trail: [u16; VERTEX_LIMIT + 1],
    pub clock: usize,
}

impl Reach {
    // Tries one port of a vertex that is reached: where it can carry something, its far vertex is reached too. Most
    // ports lead to a vertex that is reached already, so that is tested first. Breaks off with the far vertex where
    // another search has reached it.
    fn relax(
        &mut self,
        mate: &[u16; PORT_LIMIT],
        residual: &[u8; PORT_LIMIT],
        port: usize,
        other: &[u16; VERTEX_LIMIT],
    ) -> ControlFlow<usize>
        requires { (port < port_limit) × (1 ≤ at self.old.order (vertex_of port)) × Apart self.old.order other.now ×
            Tree mate.now residual.now self.old }
        ensures { Comes mate.now residual.now (λ p. p ≡ port) self.old other.now self.new result }
    {
        let far = mate[port] as usize;
        let to = far / PORTS;
        if self.order[to] != 0 {
            return ControlFlow::Continue(());
        }
        let gate = if self.back { far } else { port };
        if residual[gate] == 0 {
            return ControlFlow::Continue(());
        }
        let next = self.clock + 1;
        self.order[to] = next as u16;
        self.trail[next] = port as u16;
        self.clock = next;
        if other[to] != 0 {
            return ControlFlow::Break(to);
        }
        ControlFlow::Continue(())
    }

    // Tries the ports of a vertex that is reached. Breaks off with a vertex that another search has reached.
    pub fn visit(
        &mut self,
        mate: &[u16; PORT_LIMIT],
        residual: &[u8; PORT_LIMIT],
        vertex: usize,
        other: &[u16; VERTEX_LIMIT],
    ) -> ControlFlow<usize>
        requires { (vertex < vertex_limit) × (1 ≤ at self.old.order vertex) × Apart self.old.order other.now ×
            Tree mate.now residual.now self.old }
        ensures { Comes mate.now residual.now (λ p. vertex_of p ≡ vertex) self.old other.now self.new result }
    {
        let first = PORTS * vertex;
        for port in first..first + PORTS {
            self.relax(mate, residual, port, other)?;
        }
        ControlFlow::Continue(())
    }

    // The vertex to which the port of a number leads.
    pub fn numbered(&self, mate: &[u16; PORT_LIMIT], number: usize) -> usize
        requires { Mated mate.now × (number ≤ vertex_limit) × (at self.now.trail number < port_limit) }
        ensures { result ≡ far_vertex mate.now (at self.now.trail number) }
    {
        let port = self.trail[number] as usize;
        mate[port] as usize / PORTS
    }
}
