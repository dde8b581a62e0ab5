// The audit of a list's text over a network's text.
ghost use Rattle.std.specs.Prelude.{◌≡◌};
ghost use Rattle.base.specs.Answer.{told};
ghost use Rattle.audit.specs.Service.{audit_text};

use super::{Answers, audit};
use base::Refusal;
use loading::load_list;

// Audits a list of edges over a network text, which must read but need not be
// accepted: refusals 1 to 5 of the network, then 1 and 14 of the list.
pub fn audit_list(network: &[u8], list: &[u8]) -> Result<Answers, Refusal>
    ensures { told result ≡ audit_text network.now list.now }
{
    let answer = load_list(network, list);
    let loaded = answer?;
    Ok(audit(loaded.network, loaded.listed))
}
