// Numbers as hexadecimal digits, and signed ones as two's complement.
#![tactic(auto)]

mod hexadecimal;
mod sign;

pub use hexadecimal::{BYTE_VALUES, digit_values, put_number, read_number};
pub use sign::{signed_of, unsigned_of};
