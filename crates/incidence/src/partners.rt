// The partners at a vertex.
ghost use Rattle.std.specs.Prelude.{◌≡◌, ◌≤◌, ◌<◌};
ghost use Rattle.graph.specs.Split.{is_partner, partners};
ghost use Rattle.base.specs.Limits.{edge_limit};
ghost use Rattle.graph.specs.declared.Network.{Network};
ghost use Rattle.incidence.specs.Partners.{first_three, one_more};

use base::EDGE_LIMIT;
use graph::Network;

// How many partners a vertex has, and the first three, 0 for each that there is not.
#[derive(Clone, Copy, Default)]
pub struct Partners {
    pub count: usize,
    pub first: usize,
    pub second: usize,
    pub third: usize,
}

impl Partners {
    // One more partner.
    fn with(mut self, e: usize) -> Partners
        requires { self.count < edge_limit }
        ensures { result ≡ one_more self e }
    {
        match self.count {
            0 => self.first = e,
            1 => self.second = e,
            2 => self.third = e,
            _ => {}
        }
        self.count += 1;
        self
    }
}

// Whether edge e is a partner at v in any network with these columns of ends and this reserved edge.
#[tactic(auto, unfolding(graph::specs::Split::is_partner, graph::specs::Network::touches))]
fn is_partner<'a>(
    low: &'a [u8; EDGE_LIMIT],
    high: &'a [u8; EDGE_LIMIT],
    reserved: usize,
    e: usize,
    v: u8,
) -> bool
    requires { e < edge_limit }
    ensures { (g : Network) → g.low ≡ low.now → g.high ≡ high.now → g.reserved ≡ reserved
        → result ≡ is_partner g v e }
{
    e != reserved && (low[e] == v || high[e] == v)
}

// The partners at v, in rising order.
pub fn partners_at(network: Network, v: u8) -> Partners
    requires { network.edges ≤ edge_limit }
    ensures { result ≡ first_three (partners network v) }
{
    let mut found = Partners::default();
    for e in 0..network.edges {
        if is_partner(&network.low, &network.high, network.reserved, e, v) {
            found = found.with(e);
        }
    }
    found
}
