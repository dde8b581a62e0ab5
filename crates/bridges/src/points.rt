// Low points of a depth-first forest: for each place the earliest one to which an edge leads from the subtree there,
// tree edges apart. Vertices go by their places.
ghost use Rattle.std.specs.Prelude.{◌&&◌, ◌≡◌, ℕ, ◌<◌, ◌≤◌, length};
ghost use Rattle.base.specs.Fold.{sum, bit};
ghost use Rattle.base.specs.Limits.{vertex_limit};
ghost use Rattle.graph.specs.Network.{kept};
ghost use Rattle.forest.specs.Forest.{no_place};
ghost use Rattle.bridges.specs.LowPoints.{upper, lower, fallen, noted, raised, found, Own, Placed, Noted, Raised};

use forest::{Forest, NO_PLACE};
use graph::Network;

// The places of an edge's ends: the earlier one, and the later one.
#[derive(Clone, Copy)]
struct Span {
    upper: u16,
    lower: u16,
}

impl Span {
    // The places of edge e's ends.
    #[tactic(auto, unfolding(crate::specs::LowPoints::upper, crate::specs::LowPoints::lower))]
    fn of(network: &Network, forest: &Forest, e: usize) -> Span
        requires { Placed network.now.low network.now.high forest.now.number e }
        ensures { (result.upper ≡ upper network.now.low network.now.high forest.now.number e)
            × (result.lower ≡ lower network.now.low network.now.high forest.now.number e)
            × (result.lower < no_place) }
    {
        let a = forest.number[network.low[e] as usize];
        let b = forest.number[network.high[e] as usize];
        if a < b {
            Span { upper: a, lower: b }
        } else {
            Span { upper: b, lower: a }
        }
    }
}

// Each place is its own low point.
pub fn begin(points: &mut [u16])
    requires { length points.old ≡ vertex_limit }
    ensures { Own points.new }
{
    for (i, point) in points.iter_mut().enumerate() {
        *point = i as u16;
    }
}

// The low point of place i falls to `point`, if that is less.
#[tactic(auto, unfolding(crate::specs::LowPoints::fallen))]
fn fall(points: &mut [u16], i: usize, point: u16)
    requires { i < length points.old }
    ensures { points.new ≡ fallen points.old i point }
{
    if point < points[i] {
        points[i] = point;
    }
}

// Notes edge e at its later place, unless it is the tree edge that leads there.
#[tactic(auto, unfolding(crate::specs::LowPoints::noted))]
fn note(network: &Network, forest: &Forest, e: usize, points: &mut [u16])
    requires placed { Placed network.now.low network.now.high forest.now.number e }
    requires points_len { length points.old ≡ vertex_limit }
    ensures { points.new ≡ noted network.now.low network.now.high forest.now.number forest.now.edge points.old e }
{
    let span = Span::of(network, forest, e);
    let lower = span.lower as usize;
    if forest.edge[lower] as usize != e {
        fall(points, lower, span.upper);
    }
}

// Notes all listed edges.
pub fn note_all(network: &Network, forest: &Forest, listed: &[bool], points: &mut [u16])
    requires by_index { (e : ℕ) → e < network.now.edges → Placed network.now.low network.now.high forest.now.number e }
    requires edges_in_bounds { (network.now.edges ≤ length listed.now) × Own points.old }
    ensures { Noted network.now.low network.now.high listed.now network.now.edges forest.now.number forest.now.edge
        network.now.edges points.new }
{
    for e in 0..network.edges {
        if listed[e] {
            note(network, forest, e, points);
        }
    }
}

// What is noted at place k is noted at its parent.
#[tactic(auto, unfolding(crate::specs::LowPoints::raised))]
fn raise(forest: &Forest, k: usize, points: &mut [u16])
    requires { (length points.old ≡ vertex_limit) × (k < vertex_limit) }
    ensures { points.new ≡ raised forest.now.parent points.old k }
{
    let above = forest.parent[k];
    if above < NO_PLACE {
        let point = points[k];
        fall(points, above as usize, point);
    }
}

// Raises all places, the last first.
pub fn raise_all(forest: &Forest, points: &mut [u16])
    requires { (length points.old ≡ vertex_limit) × (forest.now.count ≤ vertex_limit) }
    ensures { Raised forest.now.parent forest.now.count points.old 0 points.new }
{
    for k in (0..forest.count).rev() {
        raise(forest, k, points);
    }
}

// Whether edge e leads to its later place and no other edge leads from the subtree there as far up as its earlier one.
#[tactic(auto, unfolding(crate::specs::LowPoints::found))]
fn is_found(network: &Network, forest: &Forest, e: usize, points: &[u16]) -> bool
    requires placed { Placed network.now.low network.now.high forest.now.number e }
    requires points_len { length points.now ≡ vertex_limit }
    ensures { result ≡ found network.now.low network.now.high forest.now.number forest.now.edge points.now e }
{
    let span = Span::of(network, forest, e);
    let lower = span.lower as usize;
    forest.edge[lower] as usize == e && span.upper < points[lower]
}

// How many listed edges are found to be bridges.
pub fn count_found(network: &Network, forest: &Forest, listed: &[bool], points: &[u16]) -> usize
    requires by_index { (e : ℕ) → e < network.now.edges → Placed network.now.low network.now.high forest.now.number e }
    requires edges_in_bounds { (network.now.edges ≤ length listed.now) × (length points.now ≡ vertex_limit) }
    ensures { result ≡ sum network.now.edges (λ e. bit (kept listed.now e && found network.now.low network.now.high
        forest.now.number forest.now.edge points.now e)) }
{
    let mut count: usize = 0;
    for e in 0..network.edges {
        if listed[e] && is_found(network, forest, e, points) {
            count += 1;
        }
    }
    count
}
