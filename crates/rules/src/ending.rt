// The ending: two vertices are left, and one of the last three edges is dropped.
ghost use Rattle.std.specs.Prelude.{◌≡◌, ◌<◌};
ghost use Rattle.graph.specs.Chain.{last_edges, end_refusal};
ghost use Rattle.graph.specs.State.{no_marks};
ghost use Rattle.incidence.specs.Partners.{first_three};
ghost use Rattle.base.specs.Answer.{told, refusal_of};
ghost use Rattle.base.specs.Limits.{edge_limit};
ghost use Rattle.rules.specs.Running.{Last};
ghost use Rattle.rules.specs.Endings.{chosen_ending, two_marked};

use super::others::{cheaper, others_than};
use base::{EDGE_LIMIT, Refusal};
use graph::Network;
use incidence::{Partners, partners_at};

// The edge that an ending drops and the two that it keeps.
#[derive(Clone, Copy)]
pub struct Drop {
    pub dropped: usize,
    pub low: usize,
    pub high: usize,
}

// The last three edges: the partners at an end of the reserved edge.
fn last_three(network: Network) -> Partners
    requires { Last network }
    ensures { result ≡ first_three (last_edges network) }
{
    let reserved = network.reserved;
    let v = network.low[reserved];
    partners_at(network, v)
}

// Judges the ending that drops d: refusal 12, or none.
pub fn judge_ending(network: Network, d: usize) -> Result<(), Refusal>
    requires { Last network }
    ensures { refusal_of (told result) ≡ end_refusal network d }
{
    let last = last_three(network);
    let (low, high) = others_than(last, d).ok_or(Refusal::NotDearest)?;
    if cheaper(network, d, low) {
        return Err(Refusal::NotDearest);
    }
    if cheaper(network, d, high) {
        return Err(Refusal::NotDearest);
    }
    Ok(())
}

// The planner's ending drops the dearest of the last three, and of equally dear ones the highest number.
pub fn chosen_ending(network: Network) -> Drop
    requires { Last network }
    ensures { result ≡ chosen_ending network }
{
    let last = last_three(network);
    let first = last.first;
    let second = last.second;
    let third = last.third;
    if cheaper(network, second, first) {
        if cheaper(network, third, first) {
            return Drop {
                dropped: first,
                low: second,
                high: third,
            };
        }
        return Drop {
            dropped: third,
            low: first,
            high: second,
        };
    }
    if cheaper(network, third, second) {
        return Drop {
            dropped: second,
            low: first,
            high: third,
        };
    }
    Drop {
        dropped: third,
        low: first,
        high: second,
    }
}

// Marks two edges, where none is marked.
pub fn mark_two(marks: &mut [bool; EDGE_LIMIT], low: usize, high: usize)
    requires { (marks.old ≡ no_marks) × (low < edge_limit) × (high < edge_limit) }
    ensures { marks.new ≡ two_marked low high }
{
    marks[low] = true;
    marks[high] = true;
}
