// The frames of a table text, read one by one: its head, and the span at a place.
ghost use Rattle.std.specs.Prelude.{◌≡◌, ◌≤◌};
ghost use Rattle.base.specs.Answer.{told, refusal_of};
ghost use Rattle.base.specs.Limits.{vertex_limit};
ghost use Rattle.table_text.specs.Frames.{count_refusal, weight_ok, above, span_refusal, read_table_head, read_span};

use base::{Refusal, cost_ok};
use frame::{Kind, Span, TableHead, read_line};
use network_frames::check_head;

// A span's doubled weight is at least so much,
const LEAST_WEIGHT: u64 = 1;

// and at most so much.
pub const MOST_WEIGHT: u64 = 4;

// Refuses more spans than a network of so many vertices has edges.
fn check_count(vertices: usize, spans: u64) -> Result<(), Refusal>
    requires { vertices ≤ vertex_limit }
    ensures { refusal_of (told result) ≡ count_refusal vertices spans }
{
    if spans <= 2 * vertices as u64 {
        Ok(())
    } else {
        Err(Refusal::Total)
    }
}

// Whether a span may have such a doubled weight.
fn weight_ok(weight: u64) -> bool
    ensures { result ≡ weight_ok weight }
{
    LEAST_WEIGHT <= weight && weight <= MOST_WEIGHT
}

// Whether a span's ends are above a pair of ends, by the lower end, then by the higher one.
fn above(lower: u64, higher: u64, span: Span) -> bool
    ensures { result ≡ above lower higher span }
{
    lower < span.lower || lower == span.lower && higher < span.higher
}

// Refuses a span behind one with the ends `lower` and `higher` by its ends, its weight, its place or its cost.
fn check_span(vertices: usize, lower: u64, higher: u64, span: Span) -> Result<(), Refusal>
    ensures { refusal_of (told result) ≡ span_refusal vertices lower higher span }
{
    if span.higher <= span.lower {
        return Err(Refusal::Ends);
    }
    if vertices as u64 <= span.higher {
        return Err(Refusal::Ends);
    }
    if !weight_ok(span.weight) {
        return Err(Refusal::Weight);
    }
    if !above(lower, higher, span) {
        return Err(Refusal::Weight);
    }
    if cost_ok(span.cost) {
        Ok(())
    } else {
        Err(Refusal::Cost)
    }
}

// Reads the head that a table text starts with: the head, and the place behind its line.
pub fn read_table_head(text: &[u8]) -> Result<(TableHead, usize), Refusal>
    ensures { told result ≡ read_table_head text.now }
{
    let Ok((f, next)) = read_line(text, 0, Kind::TableHead) else {
        return Err(Refusal::Form);
    };
    let head = TableHead::of(f);
    let vertices = head.vertices as usize;
    check_head(vertices, head.reserved as usize)?;
    check_count(vertices, head.spans)?;
    Ok((head, next))
}

// Reads the span at a place of a text, behind one with the ends `lower` and `higher`, in a table of so many vertices:
// the span, and the place behind its line.
pub fn read_span(
    text: &[u8],
    at: usize,
    vertices: usize,
    lower: u64,
    higher: u64,
) -> Result<(Span, usize), Refusal>
    ensures { told result ≡ read_span text.now at vertices lower higher }
{
    let Ok((f, next)) = read_line(text, at, Kind::Span) else {
        return Err(Refusal::Form);
    };
    let span = Span::of(f);
    check_span(vertices, lower, higher, span)?;
    Ok((span, next))
}
