// The limits of a network's numbers.
ghost use Rattle.std.specs.Prelude.{◌≡◌};
ghost use Rattle.base.specs.Limits.{vertices_ok, cost_ok};

// A network has at least so many vertices,
pub const FEWEST_VERTICES: usize = 2;

// and at most so many.
pub const VERTEX_LIMIT: usize = 256;

// It has twice as many edges as vertices.
pub const EDGE_LIMIT: usize = 2 * VERTEX_LIMIT;

// A chain has at most so many steps: they go on until the fewest vertices are left.
pub const STEP_LIMIT: usize = VERTEX_LIMIT - FEWEST_VERTICES;

// A cost is at most so far from 0.
pub const COST_LIMIT: i64 = 1_000_000_000_000;

// Whether a network may have so many vertices.
pub fn vertices_ok(n: usize) -> bool
    ensures { result ≡ vertices_ok n }
{
    FEWEST_VERTICES <= n && n <= VERTEX_LIMIT
}

// Whether an edge may have such a cost.
pub fn cost_ok(c: i64) -> bool
    ensures { result ≡ cost_ok c }
{
    -COST_LIMIT <= c && c <= COST_LIMIT
}
