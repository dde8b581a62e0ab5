// One pass over a network text: each edge is read, stored and counted at both its ends.
ghost use Rattle.std.specs.Prelude.{◌≡◌, ◌*◌, ◌≤◌};
ghost use Rattle.base.specs.Limits.{vertex_limit};
ghost use Rattle.loading.specs.Pass.{run_of, pass_over, pass_of, passed};

use super::{bare, nothing};
use base::{Refusal, VERTEX_LIMIT};
use frame::Head;
use graph::Network;
use incidence::tally_edge;
use network_frames::{read_edge, read_head};

// How the pass ended, at the place of what is refused or at the text's end; how many edges were
// read before it, the network with these edges, and how many of them are at each vertex.
#[derive(Clone, Copy)]
pub struct Pass {
    pub ended: Result<(), Refusal>,
    pub place: usize,
    pub read: usize,
    pub network: Network,
    pub tally: [u16; VERTEX_LIMIT],
}

// Reads the edges behind a head that is not refused.
fn pass_behind(text: &[u8], head: Head, first: usize) -> Pass
    requires { head.vertices ≤ vertex_limit }
    ensures { passed result ≡
        pass_over head (run_of text.now head.vertices (2 * head.vertices) 0 first) }
{
    let vertices = head.vertices as usize;
    let edges = 2 * vertices;
    let mut network = bare(vertices, head.reserved as usize);
    let mut tally = [0u16; VERTEX_LIMIT];
    let mut place = first;
    for i in 0..edges {
        let (edge, next) = match read_edge(text, place, vertices, i) {
            Ok(found) => found,
            Err(refusal) => {
                return Pass {
                    ended: Err(refusal),
                    place,
                    read: i,
                    network,
                    tally,
                };
            }
        };
        let low = edge.lower as u8;
        let high = edge.higher as u8;
        network.low[i] = low;
        network.high[i] = high;
        network.cost[i] = edge.cost;
        tally_edge(&mut tally, low, high);
        place = next;
    }
    let ended = if place < text.len() {
        Err(Refusal::Form)
    } else {
        Ok(())
    };
    Pass {
        ended,
        place,
        read: edges,
        network,
        tally,
    }
}

// Reads a network text up to its first refusal, and tallies the edges that were read.
pub fn one_pass(text: &[u8]) -> Pass
    ensures { passed result ≡ pass_of text.now }
{
    match read_head(text) {
        Ok((head, first)) => pass_behind(text, head, first),
        Err(refusal) => Pass {
            ended: Err(refusal),
            place: 0,
            read: 0,
            network: nothing(),
            tally: [0; VERTEX_LIMIT],
        },
    }
}
