// A network text read into the state.
#![tactic(auto)]

ghost use Rattle.std.specs.Prelude.{◌≡◌, ◌≤◌, ltb, length};
ghost use Rattle.base.specs.Fold.{tabulate};
ghost use Rattle.base.specs.Limits.{vertex_limit};
ghost use Rattle.loading.specs.Loading.{state_of, no_ends, no_costs, load_network, no_network, loaded_answer};

use base::{EDGE_LIMIT, Refusal, VERTEX_LIMIT};
use graph::Network;

mod columns;
mod list;
mod loaded;
mod pass;

pub use columns::load_columns;
pub use list::{LoadedList, load_list};
pub use loaded::Loaded;
pub use pass::{Pass, one_pass};

// Which vertices are present: the first so many.
fn present(vertices: usize, out: &mut [bool])
    requires { length out.old ≡ vertex_limit }
    ensures { out.new ≡ tabulate vertex_limit (λ v. ltb v vertices) }
{
    for (v, here) in out.iter_mut().enumerate() {
        *here = v < vertices;
    }
}

// The state of so many vertices before its edges are read: its columns hold 0.
fn bare(vertices: usize, reserved: usize) -> Network
    requires { vertices ≤ vertex_limit }
    ensures { result ≡ state_of vertices reserved no_ends no_ends no_costs }
{
    let mut here = [false; VERTEX_LIMIT];
    present(vertices, &mut here);
    Network {
        low: [0; EDGE_LIMIT],
        high: [0; EDGE_LIMIT],
        cost: [0; EDGE_LIMIT],
        present: here,
        reserved,
        edges: 2 * vertices,
        vertices,
        remaining: vertices,
    }
}

// The network without vertices and edges, which a pass hands back where the head is refused.
pub fn nothing() -> Network
    ensures { result ≡ no_network }
{
    bare(0, 0)
}

// Reads a network text into the state: the text's first refusal, or the network with its degrees.
pub fn load(text: &[u8]) -> Result<Loaded, Refusal>
    ensures { loaded_answer result ≡ load_network text.now }
{
    let read = one_pass(text);
    read.ended?;
    let degrees = read.tally;
    Ok(Loaded {
        network: read.network,
        degrees,
    })
}
