// Sending units from the sources to the sinks, each along a path that a search finds.
ghost use Rattle.std.specs.Prelude.{◌<◌, ◌≤◌, length, true, ◌↔◌, ◌≡◌};
ghost use Rattle.graph.specs.declared.Network.{Network};
ghost use Rattle.flow.specs.Apart.{FourApart};
ghost use Rattle.base.specs.Columns.{at};
ghost use Rattle.flow.specs.Arcs.{arc_limit, Laid, Balanced};
ghost use Rattle.flow.specs.Flow.{pushed, Sendable, Sent, Rounded};

use crate::Pair;
use crate::arcs::ARC_LIMIT;
use crate::search::Search;
use base::{EDGE_LIMIT, VERTEX_LIMIT};

// The least number of edges that may cross a cut, and so of units that can be sent across it.
const LEAST: usize = 4;

// Sends a unit along an arc: what it can carry is one less, and what its reverse can carry one more.
fn push(residual: &mut [u8; ARC_LIMIT], arc: usize)
    requires arc_lt_arc_limit { arc < arc_limit }
    requires bound { 1 ≤ at residual.old arc }
    requires balanced { Balanced residual.old }
    ensures { residual.new ≡ pushed residual.old arc }
{
    let reverse = (arc + EDGE_LIMIT) % ARC_LIMIT;
    residual[arc] -= 1;
    residual[reverse] += 1;
}

impl Search {
    // Sends a unit to a vertex that is reached, back along the trail to a source.
    fn augment(&self, ends: &[u8; ARC_LIMIT], residual: &mut [u8; ARC_LIMIT], vertex: usize)
        requires { Sendable ends.now residual.old self.now vertex }
        ensures { Sent ends.now self.now.order vertex residual.old residual.new }
    {
        let mut number = self.order[vertex] as usize;
        while number > 1 {
            let arc = self.trail[number] as usize;
            push(residual, arc);
            let from = ends[arc] as usize;
            number = self.order[from] as usize;
        }
    }
}

// One round: sends one unit more from the sources to the sinks, or finds that none can be sent.
fn round(
    ends: &[u8; ARC_LIMIT],
    residual: &mut [u8; ARC_LIMIT],
    ports: &[u16; ARC_LIMIT],
    sources: Pair,
    sinks: Pair,
) -> bool
    requires { Balanced residual.old }
    ensures { Rounded ends.now sources sinks residual.old
        residual.new result }
{
    let mut search = Search {
        order: [0; VERTEX_LIMIT],
        trail: [0; VERTEX_LIMIT + 1],
        clock: 1,
    };
    search.order[sources.first as usize] = 1;
    search.order[sources.second as usize] = 1;
    let Some(vertex) = search.run(ends, residual, ports, sources, sinks) else {
        return false;
    };
    search.augment(ends, residual, vertex);
    true
}

// Whether four units can be sent from the sources to the sinks, one after the other: exactly if every side that has the
// sources in and the sinks out is crossed by at least four edges.
pub fn four_paths(ends: &[u8], ports: &[u16], sources: Pair, sinks: Pair) -> bool
    requires ends_len { length ends.now ≡ arc_limit }
    requires ports_len { length ports.now ≡ arc_limit }
    ensures { (g : Network) → Laid g ends.now → (result ≡ true) ↔ FourApart g sources sinks }
{
    let ends: &[u8; ARC_LIMIT] = ends.as_array().unwrap();
    let ports: &[u16; ARC_LIMIT] = ports.as_array().unwrap();
    let mut residual = [1u8; ARC_LIMIT];
    for _ in 0..LEAST {
        if !round(ends, &mut residual, ports, sources, sinks) {
            return false;
        }
    }
    true
}
