// Checking the frames of a chain, each on the network that the frames before it left, and noting how each edge leaves.
ghost use Rattle.std.specs.Prelude.{◌≡◌, ◌+◌, ◌-◌, ◌≤◌, drop};
ghost use Rattle.rules.specs.Running.{Running, Last};
ghost use Rattle.departures.specs.Columns.{all_last, no_steps, ending_noted};
ghost use Rattle.claim.specs.Verdicts.{dropped_in, check_ending, check_chain, rules_in, numbers_in, column_after};
ghost use Rattle.base.specs.Answer.{told, refusal_of};
ghost use Rattle.base.specs.Limits.{edge_limit};

use base::Refusal;
use departures::Noted;
use frame::{Dropped, Kind, Step, read_line};
use graph::Network;
use rules::{judge_ending, judge_step};

// The ending that stands at a place of a chain, with nothing behind it: a refusal, or the rules with the ending noted.
fn check_ending(network: Network, chain: &[u8], at: usize, noted: &mut Noted) -> Result<(), Refusal>
    requires { Last network }
    ensures refusal { refusal_of (told result) ≡ refusal_of (check_ending network (drop at chain.now)) }
    ensures rules { noted.new.rules ≡
        column_after (check_ending network (drop at chain.now))
        (ending_noted network.reserved (dropped_in (drop at chain.now)) noted.old.rules)
        noted.old.rules }
    ensures steps { noted.new.steps ≡ noted.old.steps }
{
    let Ok((fields, next)) = read_line(chain, at, Kind::Dropped) else {
        return Err(Refusal::Form);
    };
    let edge = Dropped::of(fields).edge as usize;
    judge_ending(network, edge)?;
    if next < chain.len() {
        return Err(Refusal::Form);
    }
    noted.note_ending(network.reserved, edge);
    Ok(())
}

// The steps and the ending that stand at a place of a chain, where the next step has a number: a refusal, or how each
// edge leaves.
pub fn check_from(
    mut network: Network,
    chain: &[u8],
    at: usize,
    number: usize,
    noted: &mut Noted,
) -> Result<(), Refusal>
    requires { Running network × (noted.old.rules ≡ all_last) × (noted.old.steps ≡ no_steps) ×
        (number + network.remaining ≤ edge_limit) }
    ensures refusal { refusal_of (told result) ≡
        refusal_of (check_chain (network.remaining - 2) network (drop at chain.now)) }
    ensures rules { noted.new.rules ≡
        column_after (check_chain (network.remaining - 2) network (drop at chain.now))
        (rules_in number network (drop at chain.now)) noted.old.rules }
    ensures steps { noted.new.steps ≡
        column_after (check_chain (network.remaining - 2) network (drop at chain.now))
        (numbers_in number network (drop at chain.now)) noted.old.steps }
{
    let remaining = network.remaining;
    if remaining <= 2 {
        return check_ending(network, chain, at, noted);
    }
    let Ok((fields, next)) = read_line(chain, at, Kind::Step) else {
        return Err(Refusal::Form);
    };
    let step = Step::of(fields);
    let v = step.v as usize;
    let x = step.x as usize;
    let y = step.y as usize;
    let z = step.z as usize;
    judge_step(network, v, x, y, z, step.cost)?;
    network = network.split(v as u8, x, y, z);
    let later = check_from(network, chain, next, number + 1, noted);
    later?;
    noted.note_step(x, y, z, number as u16);
    Ok(())
}
