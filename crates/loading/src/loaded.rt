// A network that was loaded, from whatever text.
ghost use Rattle.std.specs.Prelude.{◌≡◌};
ghost use Rattle.incidence.specs.Degrees.{degrees_of};
ghost use Rattle.loading.specs.Known.{Known};

use base::VERTEX_LIMIT;
use graph::Network;

// The network, and the degree of each vertex.
#[derive(Clone, Copy)]
pub struct Loaded {
    pub network: Network,
    pub degrees: [u16; VERTEX_LIMIT],
    pub ghost known: { Known network },
    pub ghost counted: { degrees ≡ degrees_of network },
}
