// The network check.
ghost use Rattle.std.specs.Prelude.{◌≡◌};
ghost use Rattle.base.specs.Answer.{told, told_by, refusal_of};
ghost use Rattle.graph.specs.Cut.{network_refusal};
ghost use Rattle.incidence.specs.Degrees.{degrees_of};
ghost use Rattle.loading.specs.Known.{Known};
ghost use Rattle.loading.specs.Loading.{loaded_by, loaded_answer};
ghost use Rattle.claim.specs.Services.{accepting, accept_network, acceptance_of};

use base::{Refusal, Refuses, VERTEX_LIMIT};
use cuts::every_cut_four;
use graph::Network;
use incidence::all_four;
use loading::{Loaded, load};

// Refusals 6 and 7 of a network that reads and whose degrees are tallied.
fn check_cuts(network: Network, degrees: &[u16; VERTEX_LIMIT]) -> Result<(), Refusal>
    requires { Known network × (degrees.now ≡ degrees_of network) }
    ensures { refusal_of (told result) ≡ network_refusal network }
{
    if !all_four(degrees, network.vertices) {
        return Err(Refusal::Degree);
    }
    if !every_cut_four(network) {
        return Err(Refusal::Cut);
    }
    Ok(())
}

// What was loaded, if it is accepted: its own refusal, then 6, then 7.
pub fn accept<E: Refuses>(loaded: Result<Loaded, E>) -> Result<Loaded, E>
    ensures { loaded_by E.number result ≡ accepting (loaded_by E.number loaded) }
{
    if let Ok(read) = &loaded {
        check_cuts(read.network, &read.degrees)?;
    }
    loaded
}

// Reads and judges a network text: refusals 1 to 5 as the text meets them, then 6, then 7, or the network.
pub fn accept_text(text: &[u8]) -> Result<Loaded, Refusal>
    ensures { loaded_answer result ≡ accept_network text.now }
{
    accept(load(text))
}

// Checks a network that was loaded, from whatever text: its own refusal, then 6, then 7, or accepted. Its own may have
// any number that the text's reader refuses with.
pub fn check_loaded<E: Refuses>(loaded: Result<Loaded, E>) -> Result<(), E>
    ensures { told_by E.number result ≡ acceptance_of (accepting (loaded_by E.number loaded)) }
{
    let read = loaded?;
    check_cuts(read.network, &read.degrees)?;
    Ok(())
}

// Checks a network text: refusals 1 to 5 as the text meets them, then 6, then 7, or accepted.
pub fn check_network(text: &[u8]) -> Result<(), Refusal>
    ensures { told result ≡ acceptance_of (accept_network text.now) }
{
    check_loaded(load(text))
}
