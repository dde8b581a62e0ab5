// The frames of a network text, read one by one: its head, and the edge at a place.
#![tactic(auto)]

ghost use Rattle.std.specs.Prelude.{◌≡◌};
ghost use Rattle.base.specs.Answer.{told, refusal_of};
ghost use Rattle.network_frames.specs.Frames.{head_refusal, edge_refusal, read_head, read_edge};

use base::{Refusal, cost_ok, vertices_ok};
use frame::{Edge, Head, Kind, read_line};

// Refuses a head with too few vertices or too many, or with a reserved edge that is not the network's.
pub fn check_head(vertices: usize, reserved: usize) -> Result<(), Refusal>
    ensures { refusal_of (told result) ≡ head_refusal vertices reserved }
{
    if !vertices_ok(vertices) {
        return Err(Refusal::Vertices);
    }
    if reserved < 2 * vertices {
        Ok(())
    } else {
        Err(Refusal::Reserved)
    }
}

// Refuses the edge at a place for its number, its ends or its cost.
pub fn check_edge(vertices: usize, place: usize, edge: Edge) -> Result<(), Refusal>
    ensures { refusal_of (told result) ≡ edge_refusal vertices place edge }
{
    if edge.number != place as u64 {
        return Err(Refusal::Ends);
    }
    if edge.higher <= edge.lower {
        return Err(Refusal::Ends);
    }
    if vertices as u64 <= edge.higher {
        return Err(Refusal::Ends);
    }
    if cost_ok(edge.cost) {
        Ok(())
    } else {
        Err(Refusal::Cost)
    }
}

// Reads the head that a network text starts with, and gives the place behind its line too.
pub fn read_head(text: &[u8]) -> Result<(Head, usize), Refusal>
    ensures { told result ≡ read_head text.now }
{
    let Ok((f, next)) = read_line(text, 0, Kind::Head) else {
        return Err(Refusal::Form);
    };
    let head = Head::of(f);
    check_head(head.vertices as usize, head.reserved as usize)?;
    Ok((head, next))
}

// Reads at a place of a text the edge that is due there, the `place`-th of a network with so many vertices, and gives
// the place behind its line too.
pub fn read_edge(
    text: &[u8],
    at: usize,
    vertices: usize,
    place: usize,
) -> Result<(Edge, usize), Refusal>
    ensures { told result ≡ read_edge text.now at vertices place }
{
    let Ok((f, next)) = read_line(text, at, Kind::Edge) else {
        return Err(Refusal::Form);
    };
    let edge = Edge::of(f);
    check_edge(vertices, place, edge)?;
    Ok((edge, next))
}
