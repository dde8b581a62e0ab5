// Splitting off a vertex, at its ports: its edges go on to one another, two by two.
ghost use Rattle.std.specs.Prelude.{◌≡◌, ◌<◌};
ghost use Rattle.ports.specs.Ports.{port_limit, Mated};
ghost use Rattle.ports.specs.Splitting.{rejoined, relabelled, split_mates, split_labels};

use super::PORT_LIMIT;
use super::wire::plug;

// Joins the far ports of two ports by an edge that goes on, and the two by one that retires.
#[tactic(auto, unfolding(crate::specs::Splitting::rejoined, crate::specs::Splitting::relabelled))]
fn join(
    mate: &mut [u16; PORT_LIMIT],
    edge: &mut [u16; PORT_LIMIT],
    a: usize,
    b: usize,
    kept: u16,
    retired: u16,
)
    requires { Mated mate.old × (a < port_limit) × (b < port_limit) }
    ensures mate { mate.new ≡ rejoined mate.old a b }
    ensures edge { edge.new ≡
        relabelled mate.old edge.old a b kept retired }
{
    let far_a = mate[a] as usize;
    let far_b = mate[b] as usize;
    plug(mate, edge, far_a, far_b, kept);
    plug(mate, edge, a, b, retired);
}

// Splits off the vertex of four ports, those of the reserved edge and of x, y and z: the reserved edge runs on where x
// did, z from where y did, and x and y are loops at the vertex.
pub fn split_ports(
    mate: &mut [u16; PORT_LIMIT],
    edge: &mut [u16; PORT_LIMIT],
    reserved: usize,
    x: usize,
    y: usize,
    z: usize,
)
    requires mated { Mated mate.old × Mated (rejoined mate.old reserved x) }
    requires reserved_lt_port_limit { (reserved < port_limit) × (x < port_limit) × (y < port_limit) × (z < port_limit) }
    ensures mate { mate.new ≡ split_mates mate.old reserved x y z }
    ensures edge { edge.new ≡
        split_labels mate.old edge.old reserved x y z }
{
    let edge_reserved = edge[reserved];
    let edge_x = edge[x];
    let edge_y = edge[y];
    let edge_z = edge[z];
    join(mate, edge, reserved, x, edge_reserved, edge_x);
    join(mate, edge, y, z, edge_z, edge_y);
}
