// The chain check.
ghost use Rattle.std.specs.Prelude.{◌≡◌};
ghost use Rattle.base.specs.Answer.{told};
ghost use Rattle.claim.specs.Services.{chain_reply, kept_after};

use super::chain::check_from;
use super::kept::put_kept;
use super::network::accept;
use base::{EDGE_LIMIT, Refusal};
use departures::{FIRST_STEP, Noted};
use graph::Kept;
use loading::load;

// Checks any bytes proposed as a chain over a network text, and writes the
// kept text: the network's refusals, then the chain's, then 13.
pub fn check_chain(network: &[u8], chain: &[u8], kept: &mut [u8]) -> Result<usize, Refusal>
    ensures reply { told result ≡ chain_reply network.now chain.now kept.old }
    ensures kept { kept.new ≡
        kept_after network.now chain.now kept.old }
{
    let accepted = accept(load(network))?;
    let state = accepted.network;
    let mut noted = Noted::new();
    check_from(state, chain, 0, FIRST_STEP, &mut noted)?;
    let mut marks = [false; EDGE_LIMIT];
    noted.mark_kept(state.edges, &mut marks);
    put_kept(state, Kept { marks }, kept)
}
