// The planner's choice of a step: a pair of partners, and which of them costs more.
ghost use Rattle.std.specs.Prelude.{◌≡◌};
ghost use Rattle.graph.specs.Split.{step_with};
ghost use Rattle.graph.specs.Plan.{chosen_vertex, chosen_pair, chosen_step};
ghost use Rattle.rules.specs.Running.{Running, Costed};
ghost use Rattle.rules.specs.Pairs.{pair_of, ordered_with};

use super::others::{cheaper, cost_after};
use graph::{Network, Step};
use incidence::partners_at;

// Two partners at v, the lower number first, and the third, z.
#[derive(Clone, Copy)]
pub struct Pair {
    pub v: u8,
    pub low: usize,
    pub high: usize,
    pub z: usize,
}

// The higher-numbered end of the reserved edge.
fn chosen_vertex(network: Network) -> u8
    requires { Running network }
    ensures { result ≡ chosen_vertex network }
{
    let reserved = network.reserved;
    let low = network.low[reserved];
    let high = network.high[reserved];
    if low <= high { high } else { low }
}

// The two lowest-numbered admissible partners at the higher end of the reserved edge. At most one of three partners is
// not admissible, so two tests decide.
pub fn chosen_pair(network: Network) -> Pair
    requires { Running network }
    ensures { result ≡ pair_of network (chosen_pair network) }
{
    let v = chosen_vertex(network);
    let partners = partners_at(network, v);
    let first = partners.first;
    let second = partners.second;
    let third = partners.third;
    if !cuts::admissible(network, v, first, second, third) {
        return Pair {
            v,
            low: second,
            high: third,
            z: first,
        };
    }
    if cuts::admissible(network, v, second, first, third) {
        return Pair {
            v,
            low: first,
            high: second,
            z: third,
        };
    }
    Pair {
        v,
        low: first,
        high: third,
        z: second,
    }
}

// The step at v with x, y and z, with what z costs after it.
fn step_with(network: Network, v: u8, x: usize, y: usize, z: usize) -> Step
    requires { Costed network x z }
    ensures { result ≡ step_with network v x y z }
{
    let cost = cost_after(network, x, z);
    Step {
        v: v as usize,
        x,
        y,
        z,
        cost,
    }
}

// Of partners i and j the dearer is x, and of equal costs the first; z is the third partner.
fn ordered(network: Network, v: u8, i: usize, j: usize, z: usize) -> Step
    requires { Costed network i j × Costed network i z }
    ensures { result ≡ ordered_with network v i j z }
{
    if cheaper(network, i, j) {
        return step_with(network, v, j, i, z);
    }
    step_with(network, v, i, j, z)
}

// The planner's step: the chosen pair, ordered by cost.
pub fn chosen_step(network: Network) -> Step
    requires { Running network }
    ensures { result ≡ chosen_step network }
{
    let pair = chosen_pair(network);
    ordered(network, pair.v, pair.low, pair.high, pair.z)
}
