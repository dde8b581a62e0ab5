// Writing the kept text of marked edges.
ghost use Rattle.std.specs.Prelude.{◌≡◌};
ghost use Rattle.base.specs.Answer.{told, answer, reply_of, after};
ghost use Rattle.rules.specs.Running.{Keeping};
ghost use Rattle.claim.specs.Services.{kept_text_of};

use base::Refusal;
use costs::{all_but_reserved, kept_cost};
use graph::{Kept, Network};
use kept_text::write_kept;

// Writes the kept text of marked edges to the start of `text`, if there is room.
pub fn put_kept(network: Network, kept: Kept, text: &mut [u8]) -> Result<usize, Refusal>
    requires { Keeping network kept.marks }
    ensures reply { told result ≡ reply_of (answer (kept_text_of network kept.marks)) text.old }
    ensures text { text.new ≡ after (answer (kept_text_of network kept.marks)) text.old }
{
    let edges = network.edges;
    let marks = kept.marks;
    let cost = kept_cost(network, kept);
    let unreserved = all_but_reserved(network);
    write_kept(marks, edges, cost, unreserved, text)
}
