// Numbers spelt in hexadecimal digits, the high digit first.
ghost use Rattle.std.specs.Prelude.{◌≡◌, [], ◌<◌, ◌≤◌, length};
ghost use Rattle.digits.specs.Hexadecimal.{value_of, digit_values, digit_of, number_in, spell};

// How many values a digit can have, and a byte.
const BASE: u64 = 16;

pub const BYTE_VALUES: usize = 256;

// The digit of a value.
fn digit_of(value: u64) -> u8
    requires { value < 16 }
    ensures { result ≡ digit_of value }
{
    if value < 10 {
        b'0' + value as u8
    } else {
        b'a' + (value - 10) as u8
    }
}

// The value of each byte as a digit: 0 to 15, and 16 of a byte that is no digit.
pub fn digit_values() -> [u8; BYTE_VALUES]
    ensures { result ≡ digit_values }
{
    let mut values = [BASE as u8; BYTE_VALUES];
    for value in 0..BASE {
        values[digit_of(value) as usize] = value as u8;
    }
    values
}

// The value of a digit, looked up among the values of all bytes.
fn value_of(values: &[u8; BYTE_VALUES], byte: u8) -> u64
    requires { values.now ≡ digit_values }
    ensures { result ≡ value_of byte }
{
    values[byte as usize] as u64
}

// The number that at most sixteen bytes spell, if all are digits.
#[tactic(auto, using(crate::proofs::Spelling::read_digit))]
pub fn read_number(text: &[u8], values: &[u8; BYTE_VALUES]) -> Option<u64>
    requires { (length text.now ≤ 16) × (values.now ≡ digit_values) }
    ensures { result ≡ number_in text.now }
{
    let mut number = 0;
    for &byte in text {
        let value = value_of(values, byte);
        if BASE <= value {
            return None;
        }
        number = number * BASE + value;
    }
    Some(number)
}

// Spells the last digits of a number, as many as `out` has bytes.
pub fn put_number(out: &mut [u8], number: u64)
    ensures { out.new ≡ spell (length out.old) number [] }
{
    let mut left = number;
    for i in (0..out.len()).rev() {
        out[i] = digit_of(left % BASE);
        left /= BASE;
    }
}
