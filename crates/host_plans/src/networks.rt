// Networks: a network text is checked.
ghost use Rattle.std.specs.Prelude.{◌≡◌};
ghost use Rattle.base.specs.Answer.{refusal_of};
ghost use Rattle.claim.specs.Services.{accept_network};

use base::give_out;
use thinning::check_network;

// Checks a network text.
#[unsafe(no_mangle)]
pub extern "C" fn thinning_check_network(network: &[u8]) -> u32
    ensures { result ≡ refusal_of (accept_network network.now) }
{
    give_out(check_network(network), &mut ())
}
