// Columns of numbers and of costs.
ghost use Rattle.std.specs.Prelude.{◌≡◌, ◌≤◌, length, take};
ghost use Rattle.base.specs.Answer.{over};

// Copies the first elements of a column to the start of another.
pub fn copy<T: Copy>(from: &[T], count: usize, to: &mut [T])
    requires { (count ≤ length from.now) × (count ≤ length to.old) }
    ensures { to.new ≡ over (take count from.now) to.old }
{
    to[..count].copy_from_slice(&from[..count]);
}
