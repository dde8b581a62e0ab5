// A network text and the text of a list of its edges, read into the state and marks.
ghost use Rattle.std.specs.Prelude.{◌≡◌, take};
ghost use Rattle.base.specs.Answer.{told};
ghost use Rattle.loading.specs.ListLoading.{Markable, listed_marks, load_list, loaded_list_of};

use super::load;
use base::{EDGE_LIMIT, Refusal};
use graph::Network;
use list_text::read_list;

// A network, and whether each of its edges is listed.
#[derive(Clone, Copy)]
pub struct LoadedList {
    pub network: Network,
    pub listed: [bool; EDGE_LIMIT],
}

// Marks the first `count` of the listed edges.
fn mark(edges: &[u16], count: usize, marks: &mut [bool])
    requires { Markable edges.now count marks.old }
    ensures { marks.new ≡ listed_marks (take count edges.now) }
{
    for &edge in &edges[..count] {
        marks[edge as usize] = true;
    }
}

// Reads a list of edges over a network text, which need not be accepted:
// refusals 1 to 5 of the network, then 1 and 14 of the list.
pub fn load_list(network: &[u8], list: &[u8]) -> Result<LoadedList, Refusal>
    ensures { told result ≡ loaded_list_of (load_list network.now list.now) }
{
    let answer = load(network);
    let loaded = answer?;
    let network = loaded.network;
    let mut edges = [0u16; EDGE_LIMIT];
    let count = read_list(network.vertices, list, &mut edges)?;
    let mut listed = [false; EDGE_LIMIT];
    mark(&edges, count, &mut listed);
    Ok(LoadedList { network, listed })
}
