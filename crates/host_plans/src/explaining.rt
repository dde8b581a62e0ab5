// Reasons: what a proposed chain puts in and out is told edge by edge.
ghost use Rattle.std.specs.Prelude.{◌≡◌, length};
ghost use Rattle.base.specs.Answer.{given, room_in, after, refusal_of, number_given};
ghost use Rattle.reasons.specs.Services.{chain_reasons};

use base::give_out;
use reasons::explain_chain;

// Checks any bytes proposed as a chain over a network text, writes the reasons text and gives its length.
#[unsafe(no_mangle)]
pub extern "C" fn thinning_reasons(
    network: &[u8],
    chain: &[u8],
    reasons: &mut [u8],
    written: &mut usize,
) -> u32
    ensures number { result ≡ refusal_of
        (given (room_in reasons.old) (chain_reasons network.now chain.now)) }
    ensures reasons { reasons.new ≡
        after (chain_reasons network.now chain.now) reasons.old }
    ensures written { written.new ≡ number_given length (given (room_in reasons.old)
        (chain_reasons network.now chain.now)) written.old }
{
    give_out(explain_chain(network, chain, reasons), written)
}
