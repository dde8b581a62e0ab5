// Kept texts and the refusal line: written from their meanings.
#![tactic(auto)]

ghost use Rattle.std.specs.Prelude.{◌≡◌, ◌≤◌, length};
ghost use Rattle.base.specs.Answer.{answer, told, over, reply_of, after};
ghost use Rattle.base.specs.Limits.{edge_limit};
ghost use Rattle.list_text.specs.Text.{list_text};
ghost use Rattle.kept_text.specs.Text.{kept_edges, costs_text, kept_text, kept_length, refusal_text};

use base::{EDGE_LIMIT, Refusal};
use frame::{Costs, Kept, Kind, length_of, put_line};

// How many of the first edges are kept.
pub fn count_kept(kept: &[bool], edges: usize) -> usize
    requires { edges ≤ length kept.now }
    ensures { result ≡ length (kept_edges edges kept.now) }
{
    kept[..edges].iter().filter(|&&is_kept| is_kept).count()
}

// How many bytes the kept text has, whatever the costs are.
pub fn kept_length(kept: &[bool], edges: usize) -> usize
    requires { (edges ≤ length kept.now) × (edges ≤ edge_limit) }
    ensures { result ≡ kept_length (length (kept_edges edges kept.now)) }
{
    count_kept(kept, edges) * length_of(Kind::Kept) + length_of(Kind::Costs)
}

// Writes the lines of the kept edges to the start of `text`, and answers how many bytes they have.
fn put_kept(kept: &[bool], edges: usize, text: &mut [u8]) -> usize
    requires { (edges ≤ length kept.now) × (length (list_text (kept_edges edges kept.now)) ≤ length text.old) }
    ensures { (result ≡ length (list_text (kept_edges edges kept.now))) ×
        (text.new ≡ over (list_text (kept_edges edges kept.now)) text.old) }
{
    let mut at = 0;
    for edge in 0..edges {
        if kept[edge] {
            let line = Kept { edge: edge as u64 };
            at += put_line(&mut text[at..], Kind::Kept, line.fields());
        }
    }
    at
}

// Writes the line of two costs to the start of `text`, and answers its length.
pub fn put_costs(text: &mut [u8], kept: i64, unreserved: i64) -> usize
    requires { length (costs_text kept unreserved) ≤ length text.old }
    ensures { (result ≡ length (costs_text kept unreserved)) ×
        (text.new ≡ over (costs_text kept unreserved) text.old) }
{
    let costs = Costs { kept, unreserved };
    put_line(text, Kind::Costs, costs.fields())
}

// Writes the kept text of the first edges to the start of `text`.
fn put_text(kept: &[bool], edges: usize, cost: i64, unreserved: i64, text: &mut [u8])
    requires { (edges ≤ length kept.now) ×
        (length (kept_text (kept_edges edges kept.now) cost unreserved) ≤ length text.old) }
    ensures { text.new ≡
        over (kept_text (kept_edges edges kept.now) cost unreserved) text.old }
{
    let at = put_kept(kept, edges, text);
    put_costs(&mut text[at..], cost, unreserved);
}

// Writes the kept text of the marked edges among the first, with their cost and that of all edges but the reserved one.
// An edge beyond the marks isn't kept.
pub fn write_kept(
    kept: [bool; EDGE_LIMIT],
    edges: usize,
    cost: i64,
    unreserved: i64,
    text: &mut [u8],
) -> Result<usize, Refusal>
    ensures { (told result ≡ reply_of (answer (kept_text (kept_edges edges kept) cost unreserved)) text.old) ×
        (text.new ≡ after (answer (kept_text (kept_edges edges kept) cost unreserved)) text.old) }
{
    let marked = edges.min(EDGE_LIMIT);
    let length = kept_length(&kept, marked);
    if text.len() < length {
        return Err(Refusal::Short);
    }
    put_text(&kept, marked, cost, unreserved, text);
    Ok(length)
}

// Writes the line of a refusal. Its promise is for every number, so it takes no `base::Refusal`.
pub fn write_refusal(number: u8, text: &mut [u8]) -> Result<usize, Refusal>
    ensures { (told result ≡ reply_of (answer (refusal_text number)) text.old) ×
        (text.new ≡ after (answer (refusal_text number)) text.old) }
{
    let refusal = frame::Refusal {
        number: number as u64,
    };
    if text.len() < length_of(Kind::Refusal) {
        return Err(Refusal::Short);
    }
    Ok(put_line(text, Kind::Refusal, refusal.fields()))
}
