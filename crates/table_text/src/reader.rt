// Reading a table text into columns of edges.
ghost use Rattle.std.specs.Prelude.{◌≡◌};
ghost use Rattle.network_text.specs.Columns.{NetworkRead};
ghost use Rattle.table_text.specs.Text.{read_expanded};
ghost use Rattle.table_text.specs.Columns.{Roomy, Layable, laid};

use super::frames::{MOST_WEIGHT, read_span, read_table_head};
use base::{EDGE_LIMIT, Refusal};
use frame::Span;
use network_text::ReadNetwork;

// The most edges that a table's spans stand for before their total is looked at.
pub const LAID_LIMIT: usize = MOST_WEIGHT as usize * EDGE_LIMIT;

// Lays a span's edges into columns from a place on: as many as its doubled weight says.
fn lay(span: Span, from: usize, low: &mut [u16], high: &mut [u16], cost: &mut [i64])
    requires { Layable span from low.old high.old cost.old }
    ensures low { low.new ≡ laid from span.weight span.lower low.old }
    ensures high { high.new ≡ laid from span.weight span.higher high.old }
    ensures cost { cost.new ≡ laid from span.weight span.cost cost.old }
{
    let end = from + span.weight as usize;
    low[from..end].fill(span.lower as u16);
    high[from..end].fill(span.higher as u16);
    cost[from..end].fill(span.cost);
}

// Reads a table text into columns of the edges that it stands for. After a refusal they may hold anything.
pub fn read_table(
    text: &[u8],
    low: &mut [u16],
    high: &mut [u16],
    cost: &mut [i64],
) -> Result<ReadNetwork, Refusal>
    requires { Roomy low.old high.old cost.old }
    ensures { NetworkRead (read_expanded text.now)
        low.old high.old cost.old
        low.new high.new cost.new result }
{
    let (head, first) = read_table_head(text)?;
    let vertices = head.vertices as usize;
    let reserved = head.reserved as usize;
    let mut at = first;
    let mut edges = 0;
    let mut lower = 0;
    let mut higher = 0;
    for _ in 0..head.spans {
        let (span, next) = read_span(text, at, vertices, lower, higher)?;
        lay(span, edges, low, high, cost);
        edges += span.weight as usize;
        lower = span.lower;
        higher = span.higher;
        at = next;
    }
    if at < text.len() {
        return Err(Refusal::Form);
    }
    if edges != 2 * vertices {
        return Err(Refusal::Total);
    }
    Ok(ReadNetwork { vertices, reserved })
}
