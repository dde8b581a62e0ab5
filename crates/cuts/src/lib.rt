// Whether every cut of a network is crossed by at least four edges, and whether a partner is admissible.
#![tactic(auto)]

ghost use Rattle.std.specs.Prelude.{◌≤◌, length, ◌≡◌};
ghost use Rattle.graph.specs.Cut.{every_cut};
ghost use Rattle.graph.specs.Sound.{Formed};
ghost use Rattle.graph.specs.Split.{admissible};
ghost use Rattle.cuts.specs.Partnered.{Partnered};
ghost use Rattle.cuts.specs.Anchor.{FirstOf};

use flow::{Pair, four_apart, four_paths, gather, lay, wire};
use graph::Network;

// The first present vertex, or the number of vertices where none is present: the definition `FirstOf` has it so.
fn first_present(present: &[bool], vertices: usize) -> usize
    requires { vertices ≤ length present.now }
    ensures { FirstOf present.now vertices result }
{
    present[..vertices]
        .iter()
        .position(|is_present| *is_present)
        .unwrap_or(vertices)
}

// Whether every cut is crossed by at least four edges: the lowest vertex in a part without the first
// present vertex has every earlier one outside. So each vertex is tested against all earlier ones at
// once, which are gathered at the first.
pub fn every_cut_four(network: Network) -> bool
    requires { Formed network }
    ensures { result ≡ every_cut 4 network }
{
    let mut ends = lay(network);
    let ports = wire(&ends);
    let anchor = first_present(&network.present, network.vertices);
    for vertex in anchor + 1..network.vertices {
        if network.present[vertex] {
            let source = vertex as u8;
            let sink = anchor as u8;
            let four = four_paths(
                &ends,
                &ports,
                Pair {
                    first: source,
                    second: source,
                },
                Pair {
                    first: sink,
                    second: sink,
                },
            );
            if !four {
                return false;
            }
            gather(&mut ends, network.edges, source, sink);
        }
    }
    true
}

// Whether partner x at v, an end of the reserved edge, is admissible; y and z are the other two partners, in rising
// order. After that split, by Lemma 9, only cuts between the ends of the reserved edge and those of z need be tested.
pub fn admissible(network: Network, v: u8, x: usize, y: usize, z: usize) -> bool
    requires { Partnered network v x y z }
    ensures { result ≡ admissible network v x }
{
    let reserved = network.reserved;
    let after = network.split(v, x, y, z);
    let sources = Pair {
        first: after.low[reserved],
        second: after.high[reserved],
    };
    let sinks = Pair {
        first: after.low[z],
        second: after.high[z],
    };
    four_apart(after, sources, sinks)
}
