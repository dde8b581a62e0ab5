// The other two of three edges, which of two edges is cheaper, and what the third costs after a split.
ghost use Rattle.std.specs.Prelude.{◌≡◌, ◌-ℤ◌};
ghost use Rattle.std.specs.Int.Signed.{lt_z};
ghost use Rattle.graph.specs.Network.{cost_of};
ghost use Rattle.rules.specs.Running.{Costed};
ghost use Rattle.rules.specs.Others.{others_of, other_of};

use graph::Network;
use incidence::Partners;

// The two of three edges that are not x, in rising order, where x is one of the three.
pub fn others_than(partners: Partners, x: usize) -> Option<(usize, usize)>
    ensures { result ≡ others_of partners x }
{
    if x == partners.first {
        return Some((partners.second, partners.third));
    }
    if x == partners.second {
        return Some((partners.first, partners.third));
    }
    if x == partners.third {
        return Some((partners.first, partners.second));
    }
    None
}

// Of two edges the one that is not y, where y is one of them.
pub fn other_than(low: usize, high: usize, y: usize) -> usize
    ensures { result ≡ other_of low high y }
{
    if low == y { high } else { low }
}

// Whether x costs less than y.
pub fn cheaper(network: Network, x: usize, y: usize) -> bool
    requires { Costed network x y }
    ensures { result ≡ lt_z (cost_of network x) (cost_of network y) }
{
    network.cost[x] < network.cost[y]
}

// What z costs after splitting with x.
pub fn cost_after(network: Network, x: usize, z: usize) -> i64
    requires { Costed network x z }
    ensures { result ≡ cost_of network z -ℤ cost_of network x }
{
    network.cost[z] - network.cost[x]
}
