// One network planned for many candidates for its reserved edge: the costs of each plan.
#![tactic(auto)]

ghost use Rattle.std.specs.Prelude.{◌≡◌, length};
ghost use Rattle.base.specs.Answer.{told, over, reply_of, after};
ghost use Rattle.claim.specs.Condition.{reserving};
ghost use Rattle.candidates.specs.Services.{are_edges, plan_costs, candidates_costs, candidates_text};
ghost use Rattle.candidates.specs.Room.{CandidateRoom, CandidatesRoom};

use base::{EDGE_LIMIT, Refusal};
use costs::{all_but_reserved, kept_cost};
use frame::{Kind, length_of};
use graph::{Kept, Network};
use kept_text::put_costs;
use rules::{StepColumns, plan_steps};
use thinning::accept_text;

// Whether all numbers of a list are below a network's number of edges.
fn are_edges(candidates: &[u16], edges: usize) -> bool
    ensures { result ≡ are_edges edges candidates.now }
{
    candidates
        .iter()
        .all(|&candidate| (candidate as usize) < edges)
}

// Plans a network with another edge reserved, writes the costs of the plan
// to the start of `costs`, and answers how many bytes they have.
fn put_candidate(mut network: Network, reserved: usize, costs: &mut [u8]) -> usize
    requires { CandidateRoom network reserved costs.old }
    ensures { (result ≡ length (plan_costs (reserving reserved network))) ×
        (costs.new ≡ over (plan_costs (reserving reserved network)) costs.old) }
{
    network.reserved = reserved;
    let mut steps = StepColumns::new();
    let mut marks = [false; EDGE_LIMIT];
    plan_steps(network, &mut marks, 0, &mut steps);
    put_costs(
        costs,
        kept_cost(network, Kept { marks }),
        all_but_reserved(network),
    )
}

// Writes the costs of the plan of each candidate, in the order of the list, to
// the start of `costs`, and answers how many bytes they have.
fn put_candidates(network: Network, candidates: &[u16], costs: &mut [u8]) -> usize
    requires { CandidatesRoom network candidates.now costs.old }
    ensures { (result ≡ length (candidates_costs network candidates.now)) ×
        (costs.new ≡ over (candidates_costs network candidates.now) costs.old) }
{
    let mut at = 0;
    for &candidate in candidates {
        at += put_candidate(network, candidate as usize, &mut costs[at..]);
    }
    at
}

// Plans a network text once for each number of a list, with that edge reserved: refusals 1 to 7 of
// the network, then 3 if a number is none of its edges, then 13; all are met before anything is planned.
pub fn plan_candidates(
    network: &[u8],
    candidates: &[u16],
    costs: &mut [u8],
) -> Result<usize, Refusal>
    ensures reply { told result ≡
        reply_of (candidates_text network.now candidates.now) costs.old }
    ensures costs { costs.new ≡
        after (candidates_text network.now candidates.now) costs.old }
{
    let accepted = accept_text(network)?;
    let state = accepted.network;
    let room = costs.len() / length_of(Kind::Costs);
    if !are_edges(candidates, state.edges) {
        return Err(Refusal::Reserved);
    }
    if room < candidates.len() {
        return Err(Refusal::Short);
    }
    Ok(put_candidates(state, candidates, costs))
}
