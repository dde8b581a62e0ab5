// Numbers printed in base ten: right-aligned, with spaces before them.
#![tactic(auto)]

ghost use Rattle.std.specs.Prelude.{◌≡◌, true, ◌++◌, ◌+◌, ◌≤◌, nat_abs, length, take, replicate};
ghost use Rattle.decimal.specs.BaseTen.{space, digits, aligned, fits};

const BASE: u64 = 10;

const SPACE: u8 = b' ';

const MINUS: u8 = b'-';

// Writes the digits of a number to the end of `out`, and answers where the first of them stands.
fn put_digits(out: &mut [u8], number: u64) -> usize
    requires { length (digits number) ≤ length out.old }
    ensures { (result + length (digits number) ≡ length out.old) ×
        (out.new ≡ take result out.old ++ digits number) }
{
    let mut at = out.len() - 1;
    let mut left = number;
    // A `for` over the places would need an answer for the case that none is left, which the contract excludes.
    while BASE <= left {
        out[at] = b'0' + (left % BASE) as u8;
        at -= 1;
        left /= BASE;
    }
    out[at] = b'0' + left as u8;
    at
}

// Fills `out` with spaces.
pub fn put_spaces(out: &mut [u8])
    ensures { out.new ≡ replicate (length out.old) space }
{
    out.fill(SPACE);
}

// Prints a number over the whole of `out`, which has room for it: spaces, a minus before a negative one, its digits.
pub fn put_aligned(out: &mut [u8], number: i64)
    requires { fits (length out.old) number ≡ true }
    ensures { out.new ≡ aligned (length out.old) number }
{
    put_spaces(out);
    let first = put_digits(out, number.unsigned_abs());
    if number < 0 {
        out[first - 1] = MINUS;
    }
}
