// The planner over texts.
ghost use Rattle.std.specs.Prelude.{◌≡◌, ◌-◌};
ghost use Rattle.base.specs.Answer.{told, told_by, filled};
ghost use Rattle.loading.specs.Loading.{loaded_by};
ghost use Rattle.claim.specs.Services.{accepting, texts_given, plan_in, planned_of, plan_reply, planned_chain};
ghost use Rattle.claim.specs.Services.{planned_kept, Planning};

use super::kept::put_kept;
use super::network::accept;
use base::{EDGE_LIMIT, FEWEST_VERTICES, Refusal, Refuses};
use chain_text::{chain_length, put_chain};
use claim::Planned;
use graph::{Kept, Network};
use kept_text::kept_length;
use loading::{Loaded, load};
use rules::{StepColumns, plan_steps};

// Writes the texts of a plan whose steps stand in columns, if both buffers have room.
fn hand_over(
    network: Network,
    marked: Kept,
    dropped: u16,
    steps: &StepColumns,
    chain: &mut [u8],
    kept: &mut [u8],
) -> Result<Planned, Refusal>
    requires { Planning network marked.marks dropped steps.now.v steps.now.x steps.now.y steps.now.z steps.now.cost }
    ensures reply { told result ≡
        planned_of (texts_given network marked.marks chain.old kept.old) }
    ensures chain { chain.new ≡
        filled (λ t. t.chain) (texts_given network marked.marks chain.old kept.old)
        chain.old }
    ensures kept { kept.new ≡
        filled (λ t. t.kept) (texts_given network marked.marks chain.old kept.old)
        kept.old }
{
    let edges = network.edges;
    let marks = marked.marks;
    let vertices = network.remaining;
    let count = vertices - FEWEST_VERTICES;
    let chain_due = chain_length(count);
    let kept_due = kept_length(&marks, edges);
    if chain.len() < chain_due {
        return Err(Refusal::Short);
    }
    if kept.len() < kept_due {
        return Err(Refusal::Short);
    }
    put_chain(
        &steps.v[..count],
        &steps.x[..count],
        &steps.y[..count],
        &steps.z[..count],
        &steps.cost[..count],
        dropped,
        chain,
    );
    put_kept(network, marked, kept)?;
    Ok(Planned {
        chain: chain_due,
        kept: kept_due,
    })
}

// Plans a network that was loaded, from whatever text: writes the chain text and
// the kept text, or gives the network's refusal, or 13 and writes nothing. What
// its text is refused with may have any number that the text's reader refuses with.
pub fn plan_loaded<E: Refuses>(
    loaded: Result<Loaded, E>,
    chain: &mut [u8],
    kept: &mut [u8],
) -> Result<Planned, E>
    ensures reply { told_by E.number result ≡
        planned_of (plan_in (accepting (loaded_by E.number loaded)) chain.old kept.old) }
    ensures chain { chain.new ≡
        filled (λ t. t.chain) (plan_in (accepting (loaded_by E.number loaded)) chain.old kept.old)
        chain.old }
    ensures kept { kept.new ≡
        filled (λ t. t.kept) (plan_in (accepting (loaded_by E.number loaded)) chain.old kept.old)
        kept.old }
{
    let accepted = accept(loaded)?;
    let state = accepted.network;
    let mut steps = StepColumns::new();
    let mut marks = [false; EDGE_LIMIT];
    let dropped = plan_steps(state, &mut marks, 0, &mut steps);
    let planned = hand_over(state, Kept { marks }, dropped, &steps, chain, kept)?;
    Ok(planned)
}

// Plans a network text: writes the chain text and the kept text, or
// gives the network's refusal, or 13 and writes nothing.
pub fn plan(network: &[u8], chain: &mut [u8], kept: &mut [u8]) -> Result<Planned, Refusal>
    ensures reply { told result ≡ plan_reply network.now chain.old kept.old }
    ensures chain { chain.new ≡
        planned_chain network.now chain.old kept.old }
    ensures kept { kept.new ≡
        planned_kept network.now chain.old kept.old }
{
    plan_loaded(load(network), chain, kept)
}
