// Searching until a marked vertex is reached, or until two searches meet.
ghost use Rattle.flow.specs.Meet.{Searching, Finds, Meets};
ghost use Rattle.flow.specs.Reach.{Apart};

use crate::reach::Reach;
use base::VERTEX_LIMIT;
use ports::PORT_LIMIT;
use std::ops::ControlFlow;

// Visits the vertices as they are reached, from one root on, until a marked one is reached or no port leads on.
// Returns the marked vertex, if one is reached.
pub fn search_to(
    mate: &[u16; PORT_LIMIT],
    residual: &[u8; PORT_LIMIT],
    search: &mut Reach,
    marks: &[u16; VERTEX_LIMIT],
) -> Option<usize>
    requires { Searching mate.now residual.now 1 search.old 1 × Apart search.old.order marks.now }
    ensures { Finds mate.now residual.now search.old marks.now search.new result }
{
    // The queue grows while it is read, so no range has its turns.
    let mut next = 1;
    while next <= search.clock {
        let vertex = search.numbered(mate, next);
        if let ControlFlow::Break(found) = search.visit(mate, residual, vertex, marks) {
            return Some(found);
        }
        next += 1;
    }
    None
}

// Two searches in turn, from two roots each, one the way that units go and one back, until they meet or one of them is
// over. Returns the vertex where they meet, if they do.
pub fn search_between(
    mate: &[u16; PORT_LIMIT],
    residual: &[u8; PORT_LIMIT],
    search: &mut Reach,
    back: &mut Reach,
) -> Option<usize>
    requires { Searching mate.now residual.now 0 search.old 0 × Searching mate.now residual.now 0 back.old 0 ×
        Apart search.old.order back.old.order }
    ensures { Meets mate.now residual.now search.old back.old search.new back.new result }
{
    // Both queues grow while they are read, so no range has their turns.
    let mut next = 0;
    loop {
        if search.clock < next {
            return None;
        }
        if back.clock < next {
            return None;
        }
        let vertex = search.numbered(mate, next);
        if let ControlFlow::Break(found) = search.visit(mate, residual, vertex, &back.order) {
            return Some(found);
        }
        let vertex = back.numbered(mate, next);
        if let ControlFlow::Break(found) = back.visit(mate, residual, vertex, &search.order) {
            return Some(found);
        }
        next += 1;
    }
}
