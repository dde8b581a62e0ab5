// A network that stands in columns, stored in the state.
ghost use Rattle.std.specs.Prelude.{◌≡◌};
ghost use Rattle.network_text.specs.Text.{meant, Valid};
ghost use Rattle.loading.specs.Loading.{network_of};

use super::{Loaded, bare};
use base::VERTEX_LIMIT;
use incidence::tally_edge;

// Stores a network whose columns are given, and counts each edge at both its ends.
pub fn load_columns(
    vertices: usize,
    reserved: usize,
    low: &[u16],
    high: &[u16],
    cost: &[i64],
) -> Loaded
    requires { Valid (meant vertices reserved low.now high.now cost.now) }
    ensures { result.network ≡ network_of (meant vertices reserved low.now high.now cost.now) }
{
    let mut network = bare(vertices, reserved);
    let mut degrees = [0u16; VERTEX_LIMIT];
    for i in 0..2 * vertices {
        let lower = low[i] as u8;
        let higher = high[i] as u8;
        network.low[i] = lower;
        network.high[i] = higher;
        network.cost[i] = cost[i];
        tally_edge(&mut degrees, lower, higher);
    }
    Loaded { network, degrees }
}
