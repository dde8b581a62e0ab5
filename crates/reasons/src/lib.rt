// The service behind the reason beside each cable: how each edge leaves in a chain that passes.
#![tactic(auto)]

ghost use Rattle.std.specs.Prelude.{◌≡◌};
ghost use Rattle.base.specs.Answer.{told, reply_of, after};
ghost use Rattle.reasons.specs.Services.{chain_reasons};

use base::Refusal;
use departures::{FIRST_STEP, Noted};
use reasons_text::write_reasons;
use thinning::{accept_text, check_from};

// Checks any bytes proposed as a chain over a network text, and writes the reasons text: the refusals of the chain
// check, then 13.
pub fn explain_chain(network: &[u8], chain: &[u8], reasons: &mut [u8]) -> Result<usize, Refusal>
    ensures reply { told result ≡
        reply_of (chain_reasons network.now chain.now) reasons.old }
    ensures reasons { reasons.new ≡
        after (chain_reasons network.now chain.now) reasons.old }
{
    let accepted = accept_text(network)?;
    let state = accepted.network;
    let mut noted = Noted::new();
    let verdict = check_from(state, chain, 0, FIRST_STEP, &mut noted);
    verdict?;
    write_reasons(&noted.rules, &noted.steps, state.edges, reasons)
}
