// A tally of degrees: each edge is counted at both its ends, and the counts are asked for.
ghost use Rattle.std.specs.Prelude.{◌≡◌, ℕ, ◌+◌, ◌≤◌, ◌<◌, ◌^◌, eqb};
ghost use Rattle.base.specs.Columns.{at};
ghost use Rattle.base.specs.Fold.{each};
ghost use Rattle.base.specs.Limits.{vertex_limit};
ghost use Rattle.incidence.specs.Degrees.{end_counted};

use base::VERTEX_LIMIT;

// Counts an edge at both its ends.
pub fn tally_edge(tally: &mut [u16; VERTEX_LIMIT], low: u8, high: u8)
    requires { (v : ℕ) → at tally.old v + 2 < 2 ^ 16 }
    ensures { tally.new ≡ end_counted (end_counted tally.old low) high }
{
    tally[low as usize] += 1;
    tally[high as usize] += 1;
}

// Whether each of the first vertices is counted four times.
pub fn all_four(tally: &[u16; VERTEX_LIMIT], vertices: usize) -> bool
    requires { vertices ≤ vertex_limit }
    ensures { result ≡ each vertices (λ v. eqb (at tally.now v) 4) }
{
    tally[..vertices].iter().all(|&d| d == 4)
}
