// Sending a unit along the trail of a search.
ghost use Rattle.std.specs.Prelude.{◌≤◌, ◌<◌, ◌≡◌};
ghost use Rattle.base.specs.Columns.{at};
ghost use Rattle.ports.specs.Ports.{port_limit};
ghost use Rattle.flow.specs.Capacity.{pushed};
ghost use Rattle.flow.specs.Sending.{Sendable, Sent};

use crate::reach::Reach;
use ports::{PORT_LIMIT, PORTS};

// Sends a unit out by one port and in by another: the first can carry one less, and the second one more.
fn push(residual: &mut [u8; PORT_LIMIT], from: usize, to: usize)
    requires { (from < port_limit) × (to < port_limit) × (1 ≤ at residual.old from) × (at residual.old to ≤ 1) }
    ensures { residual.new ≡ pushed residual.old from to }
{
    // Read before the other is written: the contract does not say that the two ports differ.
    let more = residual[to] + 1;
    residual[from] -= 1;
    residual[to] = more;
}

impl Reach {
    // Sends a unit between a vertex that is reached and a root, along the trail that leads back from it.
    pub fn augment(&self, mate: &[u16; PORT_LIMIT], residual: &mut [u8; PORT_LIMIT], vertex: usize)
        requires { Sendable mate.now residual.old self.now vertex }
        ensures { Sent mate.now self.now vertex residual.old residual.new }
    {
        let mut number = self.order[vertex] as usize;
        while number > 1 {
            let port = self.trail[number] as usize;
            let far = mate[port] as usize;
            if self.back {
                push(residual, far, port);
            } else {
                push(residual, port, far);
            }
            number = self.order[port / PORTS] as usize;
        }
    }
}
