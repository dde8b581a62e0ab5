// Two's complement of a field, at any width.
ghost use Rattle.std.specs.Prelude.{◌≡◌, ◌*◌, ◌^◌, ◌<◌, ◌≤◌};
ghost use Rattle.std.specs.Int.Signed.{mag};
ghost use Rattle.digits.specs.Sign.{signed_of, unsigned_of};

// Half of the numbers that so many digits can spell: the first that stands for a negative one.
fn half_of(digits: usize) -> u64
    requires { (0 < digits) × (digits ≤ 16) }
    ensures { (2 * result ≡ 16 ^ digits) × (result ≤ 2 ^ 63) }
{
    1 << (4 * digits - 1)
}

// The signed number of a field's number. A field has any number of digits, so no cast between fixed widths does it.
pub fn signed_of(number: u64, digits: usize) -> i64
    requires { (0 < digits) × (digits ≤ 16) × (number < 16 ^ digits) }
    ensures { result ≡ signed_of digits number }
{
    let half = half_of(digits);
    if number < half {
        number as i64
    } else {
        let below = half - 1 - (number - half);
        -1 - (below as i64)
    }
}

// The field's number of a signed number for which the field has room.
pub fn unsigned_of(signed: i64, digits: usize) -> u64
    requires { (0 < digits) × (digits ≤ 16) × (2 * mag signed < 16 ^ digits) }
    ensures { result ≡ unsigned_of digits signed }
{
    if signed < 0 {
        let half = half_of(digits);
        let below = (-1 - signed) as u64;
        half + (half - 1 - below)
    } else {
        signed as u64
    }
}
