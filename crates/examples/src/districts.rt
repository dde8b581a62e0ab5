// Building the networks of document 01's district examples.
ghost use Rattle.std.specs.Prelude.{true, false, ◌≡◌, ◌≤◌, pos, length, replicate};
ghost use Rattle.base.specs.Limits.{vertex_limit, edge_limit};
ghost use Rattle.examples.specs.District.{filled, network, triangle, square, uneven};

use base::{EDGE_LIMIT, VERTEX_LIMIT};
use graph::Network;

// Marks of the first n cabinets.
fn first(n: usize) -> [bool; VERTEX_LIMIT]
    requires { n ≤ vertex_limit }
    ensures { result ≡ filled vertex_limit (replicate n true) false }
{
    let mut marks = [false; VERTEX_LIMIT];
    marks[..n].fill(true);
    marks
}

// A column that begins with a list and has one element from there on.
fn column<T: Copy>(list: &[T], rest: T) -> [T; EDGE_LIMIT]
    requires { length list.now ≤ edge_limit }
    ensures { result ≡ filled edge_limit list.now rest }
{
    let mut column = [rest; EDGE_LIMIT];
    column[..list.len()].copy_from_slice(list);
    column
}

// A network of n cabinets, its reserved cable, and the ends and costs of its cables.
#[tactic(auto, unfolding(crate::specs::District::network))]
fn network(n: usize, reserved: usize, low: &[u8], high: &[u8], cost: &[i64]) -> Network
    requires n_le_vertex_limit { (n ≤ vertex_limit) × (length low.now ≤ edge_limit) }
    requires high_len_bound { (length high.now ≤ edge_limit) × (length cost.now ≤ edge_limit) }
    ensures { result ≡ network n reserved low.now high.now cost.now }
{
    Network {
        low: column(low, 0),
        high: column(high, 0),
        cost: column(cost, 0),
        present: first(n),
        reserved,
        edges: low.len(),
        vertices: n,
        remaining: n,
    }
}

// The network T.
pub fn triangle() -> Network
    ensures { result ≡ triangle }
{
    let low = [0u8, 0, 0, 0, 1, 1];
    let high = [1u8, 1, 2, 2, 2, 2];
    let cost = [7i64, 4, 1, 2, 6, 3];
    network(3, 0, &low, &high, &cost)
}

// The district of four cabinets.
pub fn square() -> Network
    ensures { result ≡ square }
{
    let low = [0u8, 0, 2, 2, 0, 1, 0, 1];
    let high = [1u8, 1, 3, 3, 2, 3, 3, 2];
    let cost = [2i64, 5, 1, 4, 9, 3, 6, 2];
    network(4, 4, &low, &high, &cost)
}

// The network with a cabinet of five cables and one of three.
pub fn uneven() -> Network
    ensures { result ≡ uneven }
{
    let low = [0u8, 0, 0, 0, 0, 1];
    let high = [1u8, 1, 1, 2, 2, 2];
    let cost = [1i64, 1, 1, 1, 1, 1];
    network(3, 0, &low, &high, &cost)
}
