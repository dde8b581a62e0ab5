// A page for the site binder: a line for each edge of a list over a network text, and the sum of their costs.
#![tactic(auto)]

mod lines;

ghost use Rattle.std.specs.Prelude.{◌≡◌};
ghost use Rattle.base.specs.Answer.{told, over, reply_of, after};
ghost use Rattle.kept_text.specs.Text.{kept_edges};
ghost use Rattle.page.specs.Page.{page_of, page_text};
ghost use Rattle.page.specs.Room.{PageRoom};

use base::{EDGE_LIMIT, Refusal};
use costs::kept_cost;
use graph::{Kept, Network};
use lines::{page_length, put_lines, put_sum};
use loading::load_list;

// Writes the page of the listed edges to the start of `page`.
fn put_page(network: Network, listed: [bool; EDGE_LIMIT], page: &mut [u8])
    requires { PageRoom network listed page.old }
    ensures { page.new ≡
        over (page_of network (kept_edges network.edges listed)) page.old }
{
    let sum = kept_cost(network, Kept { marks: listed });
    let at = put_lines(network, listed, page);
    put_sum(&mut page[at..], sum);
}

// Prints a list of edges over a network text, which must read but need not be accepted: refusals
// 1 to 5 of the network, then 1 and 14 of the list, then 13.
pub fn print_page(network: &[u8], list: &[u8], page: &mut [u8]) -> Result<usize, Refusal>
    ensures reply { told result ≡
        reply_of (page_text network.now list.now) page.old }
    ensures page { page.new ≡
        after (page_text network.now list.now) page.old }
{
    let answer = load_list(network, list);
    let loaded = answer?;
    let length = page_length(&loaded.listed, loaded.network.edges);
    if page.len() < length {
        return Err(Refusal::Short);
    }
    put_page(loaded.network, loaded.listed, page);
    Ok(length)
}
