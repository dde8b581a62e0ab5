// Reasons texts, written from a column of rules and a column of steps.
#![tactic(auto)]

ghost use Rattle.std.specs.Prelude.{◌≡◌, ◌≤◌, length};
ghost use Rattle.base.specs.Answer.{answer, told, over, reply_of, after};
ghost use Rattle.base.specs.Limits.{edge_limit};
ghost use Rattle.frame.specs.Table.{REASON, line_length};
ghost use Rattle.frame.specs.Line.{line_of};
ghost use Rattle.frame.specs.Kinds.{of_reason};
ghost use Rattle.reasons_text.specs.Text.{reasons_text, reasons_length};

use base::{EDGE_LIMIT, Refusal};
use frame::{Kind, Reason, length_of, put_line};

// Writes the line of an edge, its rule and its step to the start of `text`, and answers its length.
fn put_reason(edge: usize, rule: u8, step: u16, text: &mut [u8]) -> usize
    requires { line_length REASON ≤ length text.old }
    ensures { (result ≡ line_length REASON) × (text.new ≡
        over (line_of REASON (of_reason (record { edge = edge; rule = rule; step = step }))) text.old) }
{
    let reason = Reason {
        edge: edge as u64,
        rule: rule as u64,
        step: step as u64,
    };
    put_line(text, Kind::Reason, reason.fields())
}

// Writes the lines of the first edges, each with its rule and its step, to the start of `text`.
fn put_reasons(rules: &[u8; EDGE_LIMIT], steps: &[u16; EDGE_LIMIT], edges: usize, text: &mut [u8])
    requires { (edges ≤ edge_limit) × (reasons_length edges ≤ length text.old) }
    ensures { text.new ≡
        over (reasons_text edges rules.now steps.now) text.old }
{
    let mut at = 0;
    for edge in 0..edges {
        at += put_reason(edge, rules[edge], steps[edge], &mut text[at..]);
    }
}

// Writes the reasons text of the first edges: 13 if `text` is shorter, and then nothing is written.
pub fn write_reasons(
    rules: &[u8; EDGE_LIMIT],
    steps: &[u16; EDGE_LIMIT],
    edges: usize,
    text: &mut [u8],
) -> Result<usize, Refusal>
    requires { edges ≤ edge_limit }
    ensures { (told result ≡
        reply_of (answer (reasons_text edges rules.now steps.now)) text.old) ×
        (text.new ≡
        after (answer (reasons_text edges rules.now steps.now)) text.old) }
{
    let length = edges * length_of(Kind::Reason);
    if text.len() < length {
        return Err(Refusal::Short);
    }
    put_reasons(rules, steps, edges, text);
    Ok(length)
}
