// The kept set, and going back through a step.
ghost use Rattle.std.specs.Prelude.{◌≡◌, ◌<◌};
ghost use Rattle.graph.specs.Chain.{lift};
ghost use Rattle.base.specs.Limits.{edge_limit};

use base::EDGE_LIMIT;

// A mark for each edge: whether it is kept.
#[derive(Clone, Copy)]
pub struct Kept {
    pub marks: [bool; EDGE_LIMIT],
}

// Going back through a step, in marks that are lent: y is kept, and x exactly if z is not.
pub fn lift_marks(marks: &mut [bool; EDGE_LIMIT], x: usize, y: usize, z: usize)
    requires { (x < edge_limit) × (y < edge_limit) × (z < edge_limit) }
    ensures { marks.new ≡ lift x y z marks.old }
{
    let z_kept = marks[z];
    marks[y] = true;
    marks[x] = !z_kept;
}

impl Kept {
    // Going back through a step.
    pub fn lift(mut self, x: usize, y: usize, z: usize) -> Kept
        requires { (x < edge_limit) × (y < edge_limit) × (z < edge_limit) }
        ensures { result.marks ≡ lift x y z self.marks }
    {
        lift_marks(&mut self.marks, x, y, z);
        self
    }
}
