// Judging a proposed step.
ghost use Rattle.std.specs.Prelude.{true, ◌≡◌};
ghost use Rattle.base.specs.Answer.{told, refusal_of};
ghost use Rattle.graph.specs.Network.{touches};
ghost use Rattle.graph.specs.Chain.{step_refusal};
ghost use Rattle.rules.specs.Running.{Running, Costed};
ghost use Rattle.rules.specs.Judgements.{names};

use super::others::{cheaper, cost_after, other_than, others_than};
use base::Refusal;
use graph::{Network, Step};
use incidence::partners_at;

// Whether a step names an edge as z, and what that costs after the step.
fn names_third(network: Network, step: Step, third: usize) -> bool
    requires { Costed network step.x third }
    ensures { result ≡ names network step third }
{
    let z = step.z;
    let cost = step.cost;
    let due = cost_after(network, step.x, third);
    z == third && cost == due
}

// Judges a step at an end of the reserved edge: refusals 9 to 11 in order, then 17, or none. What is asked for 11 and
// for 17 is known before either is given.
fn judge_at(network: Network, v: u8, step: Step) -> Result<(), Refusal>
    requires { Running network × (touches network v network.reserved ≡ true) × (step.v ≡ v) }
    ensures { refusal_of (told result) ≡ step_refusal network step }
{
    let x = step.x;
    let y = step.y;
    let partners = partners_at(network, v);
    let (x_low, x_high) = others_than(partners, x).ok_or(Refusal::NoPartner)?;
    let (y_low, y_high) = others_than(partners, y).ok_or(Refusal::NoPartner)?;
    if x == y {
        return Err(Refusal::NoPartner);
    }
    if !cuts::admissible(network, v, x, x_low, x_high) {
        return Err(Refusal::NotAdmissible);
    }
    if !cuts::admissible(network, v, y, y_low, y_high) {
        return Err(Refusal::NotAdmissible);
    }
    let x_cheaper = cheaper(network, x, y);
    let z_named = names_third(network, step, other_than(x_low, x_high, y));
    if x_cheaper {
        return Err(Refusal::Cheaper);
    }
    if !z_named {
        return Err(Refusal::NotGiven);
    }
    Ok(())
}

// Judges the step that names these: refusals 8 to 11 in order, then 17, or none. It takes numbers, so that a chain's
// check, which goes as deep as there are vertices, keeps no step in memory.
pub fn judge_step(
    network: Network,
    v: usize,
    x: usize,
    y: usize,
    z: usize,
    cost: i64,
) -> Result<(), Refusal>
    requires { Running network }
    ensures { refusal_of (told result) ≡ step_refusal network (record { v = v; x = x; y = y; z = z; cost = cost }) }
{
    let step = Step { v, x, y, z, cost };
    let reserved = network.reserved;
    let low = network.low[reserved];
    if low as usize == v {
        return judge_at(network, low, step);
    }
    let high = network.high[reserved];
    if high as usize == v {
        return judge_at(network, high, step);
    }
    Err(Refusal::NoEnd)
}
