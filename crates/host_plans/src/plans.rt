// Plans: a network text is planned, and a proposed chain is checked.
ghost use Rattle.std.specs.Prelude.{◌≡◌, length};
ghost use Rattle.base.specs.Answer.{told, given, filled, room_in, after, refusal_of, number_given};
ghost use Rattle.claim.specs.Services.{check_chain_text, plan_given};

use base::{Refusal, give_out};
use claim::Planned;
use thinning::{check_chain, plan};

// Gives the lengths of a plan's texts out, with 0, or a refusal's number, with nothing.
pub fn give_lengths(
    reply: Result<Planned, Refusal>,
    chain_written: &mut usize,
    kept_written: &mut usize,
) -> u32
    ensures number { result ≡ refusal_of (told reply) }
    ensures chain_written { chain_written.new ≡ number_given (λ lengths. lengths.chain) (told reply) chain_written.old }
    ensures kept_written { kept_written.new ≡ number_given (λ lengths. lengths.kept) (told reply) kept_written.old }
{
    match reply {
        Ok(lengths) => {
            *chain_written = lengths.chain;
            *kept_written = lengths.kept;
            0
        }
        Err(refusal) => refusal.number() as u32,
    }
}

// Plans a network text into a chain text and a kept text, and gives their lengths.
#[unsafe(no_mangle)]
pub extern "C" fn thinning_plan(
    network: &[u8],
    chain: &mut [u8],
    kept: &mut [u8],
    chain_written: &mut usize,
    kept_written: &mut usize,
) -> u32
    ensures number { result ≡ refusal_of
        (plan_given network.now chain.old kept.old) }
    ensures chain { chain.new ≡ filled (λ t. t.chain)
        (plan_given network.now chain.old kept.old) chain.old }
    ensures kept { kept.new ≡ filled (λ t. t.kept)
        (plan_given network.now chain.old kept.old) kept.old }
    ensures chain_written { chain_written.new ≡ number_given (λ t. length t.chain)
        (plan_given network.now chain.old kept.old) chain_written.old }
    ensures kept_written { kept_written.new ≡ number_given (λ t. length t.kept)
        (plan_given network.now chain.old kept.old) kept_written.old }
{
    give_lengths(plan(network, chain, kept), chain_written, kept_written)
}

// Checks any bytes proposed as a chain over a network text, writes the kept text and gives its length.
#[unsafe(no_mangle)]
pub extern "C" fn thinning_check_chain(
    network: &[u8],
    chain: &[u8],
    kept: &mut [u8],
    kept_written: &mut usize,
) -> u32
    ensures number { result ≡ refusal_of
        (given (room_in kept.old) (check_chain_text network.now chain.now)) }
    ensures kept { kept.new ≡ after
        (check_chain_text network.now chain.now) kept.old }
    ensures kept_written { kept_written.new ≡ number_given length (given (room_in kept.old)
        (check_chain_text network.now chain.now)) kept_written.old }
{
    give_out(check_chain(network, chain, kept), kept_written)
}
