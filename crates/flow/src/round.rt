// Rounds: each sends one unit more, or finds that none can be sent.
ghost use Rattle.std.specs.Prelude.{◌≤◌, ◌≡◌};
ghost use Rattle.base.specs.Columns.{at};
ghost use Rattle.ports.specs.Ports.{Mated};
ghost use Rattle.flow.specs.Capacity.{Balanced};
ghost use Rattle.flow.specs.Meet.{unreached, rooted, rooted_pair};
ghost use Rattle.flow.specs.Sending.{Between, Distinct, Leaving, Rounded};

use crate::Pair;
use crate::meet::{search_between, search_to};
use crate::reach::Reach;
use base::VERTEX_LIMIT;
use ports::{PORT_LIMIT, PORTS};

impl Reach {
    // Begins a search anew, the way that units go or back: no vertex is reached.
    fn begin(&mut self, back: bool)
        ensures { self.new ≡ unreached back self.old.trail }
    {
        self.back = back;
        self.order = [0; VERTEX_LIMIT];
        self.clock = 1;
    }

    // Makes a vertex a root of a search: its number is 1, and a port that leads to it stands in the trail.
    fn root(&mut self, mate: &[u16; PORT_LIMIT], place: usize, vertex: u8)
        requires { place ≤ 1 }
        ensures { self.new ≡ rooted mate.now self.old place vertex }
    {
        let vertex = vertex as usize;
        self.order[vertex] = 1;
        self.trail[place] = mate[PORTS * vertex];
    }

    // Makes two vertices, perhaps the same one, the roots of a search.
    fn root_pair(&mut self, mate: &[u16; PORT_LIMIT], roots: Pair)
        ensures { self.new ≡ rooted_pair mate.now self.old roots }
    {
        self.root(mate, 0, roots.first);
        self.root(mate, 1, roots.second);
    }
}

// One round from a vertex to any that is marked. The search is begun anew, and lent for its room alone.
pub fn round_to(
    mate: &[u16; PORT_LIMIT],
    residual: &mut [u8; PORT_LIMIT],
    source: u8,
    marks: &[u16; VERTEX_LIMIT],
    search: &mut Reach,
) -> bool
    requires { Mated mate.now × Balanced mate.now residual.old × (at marks.now source ≡ 0) }
    ensures { Rounded mate.now (Leaving source marks.now) residual.old residual.new result }
{
    search.begin(false);
    search.root(mate, 1, source);
    let Some(vertex) = search_to(mate, residual, search, marks) else {
        return false;
    };
    search.augment(mate, residual, vertex);
    true
}

// One round from two vertices to two others. The unit goes from where two searches meet on to a sink, and comes there
// from a source. The searches are begun anew, and lent for their room alone.
pub fn round_between(
    mate: &[u16; PORT_LIMIT],
    residual: &mut [u8; PORT_LIMIT],
    sources: Pair,
    sinks: Pair,
    search: &mut Reach,
    back: &mut Reach,
) -> bool
    requires { Mated mate.now × Balanced mate.now residual.old × Distinct sources sinks }
    ensures { Rounded mate.now (Between sources sinks) residual.old residual.new result }
{
    search.begin(false);
    search.root_pair(mate, sources);
    back.begin(true);
    back.root_pair(mate, sinks);
    let Some(vertex) = search_between(mate, residual, search, back) else {
        return false;
    };
    search.augment(mate, residual, vertex);
    back.augment(mate, residual, vertex);
    true
}
