// Counting a network's ports.
ghost use Rattle.std.specs.Prelude.{◌≡◌, ◌≤◌};
ghost use Rattle.base.specs.Limits.{edge_limit};
ghost use Rattle.incidence.specs.Degrees.{degrees_of};

use base::VERTEX_LIMIT;
use graph::Network;
use incidence::tally_edge;

// How many ends of cables each cabinet has.
pub fn degrees_of(g: Network) -> [u16; VERTEX_LIMIT]
    requires { g.edges ≤ edge_limit }
    ensures { result ≡ degrees_of g }
{
    let mut tally = [0u16; VERTEX_LIMIT];
    for e in 0..g.edges {
        tally_edge(&mut tally, g.low[e], g.high[e]);
    }
    tally
}
