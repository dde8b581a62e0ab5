// Lines: a frame's fields, spelt at the places that the table gives, and a line feed.
ghost use Rattle.std.specs.Prelude.{◌≡◌, ℕ, ◌+◌, ◌<◌, ◌≤◌, length, take, drop};
ghost use Rattle.base.specs.Answer.{told, over};
ghost use Rattle.frame.specs.Table.{rows, fields, row_of, start_of, digits_of, line_length, entries_of};
ghost use Rattle.digits.specs.Hexadecimal.{digit_values, number_in, spell};
ghost use Rattle.frame.specs.Line.{fields_from, list_of, line_at, read_line, fields_line, line_of, HasFields};

use super::table::{FIELDS, Kind, entries_of, length_of, number_of, start_in, start_of};
use base::Refusal;
use digits::{BYTE_VALUES, digit_values, put_number, read_number};

pub const LINE_FEED: u8 = 10;

// How many digits a kind has.
const KIND_DIGITS: usize = 2;

// The fields of a frame, as they are spelt, in the table's order; an absent one is 0.
#[derive(Clone, Copy)]
pub struct Fields {
    pub first: u64,
    pub second: u64,
    pub third: u64,
    pub fourth: u64,
    pub fifth: u64,
}

pub const ABSENT: Fields = Fields {
    first: 0,
    second: 0,
    third: 0,
    fourth: 0,
    fifth: 0,
};

impl Fields {
    fn of(numbers: [u64; FIELDS]) -> Self
        ensures { result ≡ fields_from numbers }
    {
        Fields {
            first: numbers[0],
            second: numbers[1],
            third: numbers[2],
            fourth: numbers[3],
            fifth: numbers[4],
        }
    }

    fn numbers(self) -> [u64; FIELDS]
        ensures { result ≡ list_of self }
    {
        [self.first, self.second, self.third, self.fourth, self.fifth]
    }
}

// The number that a field of a line spells, by the entries of its row, if its bytes are digits.
fn read_field(line: &[u8], entries: u64, field: usize, values: &[u8; BYTE_VALUES]) -> Option<u64>
    requires { HasFields entries line.now × (field < fields) × (values.now ≡ digit_values) }
    ensures { (row : ℕ) → row < rows → entries ≡ entries_of row
        → result ≡ number_in (take (digits_of row field) (drop (start_of row field) line.now)) }
{
    let start = start_in(entries, field);
    let end = start_in(entries, field + 1);
    read_number(&line[start..end], values)
}

// Spells a number at the place of a field, by the entries of its row, and keeps what stands behind the field.
fn put_field(out: &mut [u8], entries: u64, field: usize, number: u64)
    requires { HasFields entries out.old × (field < fields) }
    ensures { (row : ℕ) → row < rows → entries ≡ entries_of row → drop (start_of row field) out.new ≡
        spell (digits_of row field) number (drop (start_of row (field + 1)) out.old) }
{
    let from = start_in(entries, field);
    let to = start_in(entries, field + 1);
    put_number(&mut out[from..to], number)
}

// The fields of a line, with the place behind it, where the bytes at their places are digits.
fn read_fields(
    line: &[u8],
    kind: Kind,
    next: usize,
    values: &[u8; BYTE_VALUES],
) -> Result<(Fields, usize), Refusal>
    requires { (start_of (row_of kind) fields ≤ length line.now) × (values.now ≡ digit_values) }
    ensures { told result ≡ fields_line (row_of kind) line.now next }
{
    let entries = entries_of(kind);
    let mut numbers = [0; FIELDS];
    for (field, number) in numbers.iter_mut().enumerate() {
        *number = read_field(line, entries, field, values).ok_or(Refusal::Form)?;
    }
    Ok((Fields::of(numbers), next))
}

// The frame of a kind whose line `line` starts with, with the place behind the line.
fn line_at(
    line: &[u8],
    kind: Kind,
    next: usize,
    values: &[u8; BYTE_VALUES],
) -> Result<(Fields, usize), Refusal>
    requires { values.now ≡ digit_values }
    ensures { told result ≡ line_at (row_of kind) line.now next }
{
    let end = start_of(kind, FIELDS);
    if line.len() <= end {
        return Err(Refusal::Form);
    }
    if line[end] != LINE_FEED {
        return Err(Refusal::Form);
    }
    let number = read_number(&line[..KIND_DIGITS], values).ok_or(Refusal::Form)?;
    if number != number_of(kind) {
        return Err(Refusal::Form);
    }
    read_fields(line, kind, next, values)
}

// The frame of a kind at a place of a text, with the place behind its line.
pub fn read_line(text: &[u8], at: usize, kind: Kind) -> Result<(Fields, usize), Refusal>
    ensures { told result ≡ read_line (row_of kind) text.now at }
{
    if text.len() < at {
        return Err(Refusal::Form);
    }
    let values = digit_values();
    let next = at + length_of(kind);
    line_at(&text[at..], kind, next, &values)
}

// Writes a frame's line to the start of `out`, and answers its length.
pub fn put_line(out: &mut [u8], kind: Kind, f: Fields) -> usize
    requires { line_length (row_of kind) ≤ length out.old }
    ensures { (result ≡ line_length (row_of kind)) × (out.new ≡ over (line_of (row_of kind) f) out.old) }
{
    let numbers = f.numbers();
    let entries = entries_of(kind);
    let end = start_of(kind, FIELDS);
    out[end] = LINE_FEED;
    for field in (0..FIELDS).rev() {
        put_field(out, entries, field, numbers[field]);
    }
    put_number(&mut out[..KIND_DIGITS], number_of(kind));
    end + 1
}
