// The plan program: reads a network text, and writes its chain text and kept text, or one refusal line.
#![tactic(auto)]

ghost use Rattle.std.specs.Prelude.{◌≡◌, ◌+◌, ◌≤◌, length, take};
ghost use Rattle.base.specs.Answer.{told, filled};
ghost use Rattle.base.specs.Lengths.{longest_network, longest_kept, longest_chain};
ghost use Rattle.claim.specs.Services.{plan_text, planned_of};

use base::{LONGEST_CHAIN, LONGEST_KEPT, LONGEST_NETWORK, Refusal};
use claim::Planned;
use kept_text::write_refusal;
use std::io;
use std::io::Read;
use thinning::plan;

// One byte more than the longest network text has: a longer input is answered as these bytes are (the laws
// `first_bytes` of crate network_text and `plan-first` of crate thinning).
const INPUT_ROOM: usize = LONGEST_NETWORK + 1;

// Room for the line of a refusal.
const LINE_ROOM: usize = 16;

// Writes the line of a refusal.
fn refuse(rt: &impl Print, refusal: Refusal) -> io::Result<()> {
    let mut line = [0u8; LINE_ROOM];
    let Ok(length) = write_refusal(refusal.number(), &mut line) else {
        return Ok(());
    };
    rt.write_all(&line[..length])
}

// Reads standard input, as far as it says what is answered, and answers how many bytes that is. The buffer has one byte
// more than the longest network text, neither less nor more.
fn read_input(from: &mut impl Read, input: &mut [u8]) -> usize
    requires { length input.old ≡ longest_network + 1 }
    ensures { (result ≤ length input.new) × (result ≡ length (take result input.new)) }
{
    let mut done = 0;
    while done < input.len() {
        match from.read(&mut input[done..]) {
            Ok(n) => {
                if n == 0 {
                    break;
                }
                done += n;
            }
            Err(_) => {
                break;
            }
        }
    }
    done
}

// Plans a network text into buffers that have room for the longest texts, so never 13 (the law `every-plan-fits` of
// crate thinning).
fn plan_roomy(network: &[u8], chain: &mut [u8], kept: &mut [u8]) -> Result<Planned, Refusal>
    requires { (longest_chain ≤ length chain.old) × (longest_kept ≤ length kept.old) }
    ensures reply { told result ≡ planned_of (plan_text network.now) }
    ensures chain { chain.new ≡ filled (λ t. t.chain) (plan_text network.now) chain.old }
    ensures kept { kept.new
        ≡ filled (λ t. t.kept) (plan_text network.now) kept.old }
{
    plan(network, chain, kept)
}

// Plans a network text and writes what is due.
fn answer(rt: &impl Print, network: &[u8]) -> io::Result<()> {
    let mut chain = [0u8; LONGEST_CHAIN];
    let mut kept = [0u8; LONGEST_KEPT];
    match plan_roomy(network, &mut chain, &mut kept) {
        Ok(lengths) => {
            rt.write_all(&chain[..lengths.chain])?;
            rt.write_all(&kept[..lengths.kept])
        }
        Err(refusal) => refuse(rt, refusal),
    }
}

// A write that fails ends the program with that error.
fn main(rt: HostRuntime) -> io::Result<()> {
    let mut input = [0u8; INPUT_ROOM];
    let n = read_input(&mut rt.stdin(), &mut input);
    answer(&rt, &input[..n])
}
