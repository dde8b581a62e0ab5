// The one table of frames: their kinds, the places of their fields and their lengths.
ghost use Rattle.std.specs.Prelude.{◌≡◌, ℕ, ◌<◌, ◌≤◌};
ghost use Rattle.frame.specs.Table.{rows, columns, fields, row_of, entry_of, entries_of, kind_of, start_of, digits_of};
ghost use Rattle.frame.specs.Table.{line_length};
ghost use Rattle.digits.specs.Hexadecimal.{byte_values};

use digits::BYTE_VALUES;

// How many fields a frame can have.
pub const FIELDS: usize = 5;

// The columns of the table: the kind, the place of each field, the length.
const COLUMNS: usize = 1 + FIELDS + 1;

const ROWS: usize = 10;

const BYTE_BITS: usize = 8;

// The kinds of frames, in the order of the table's rows.
#[derive(Clone, Copy, Debug, PartialEq, Eq, Hash)]
pub enum Kind {
    // 01: how many vertices a network has, and its reserved edge.
    Head,
    // 02: an edge.
    Edge,
    // 03: a step.
    Step,
    // 04: the edge that the ending drops.
    Dropped,
    // 05: a kept edge.
    Kept,
    // 06: the cost of the kept edges, and of all edges but the reserved one.
    Costs,
    // 08: how many vertices a table's network has, its reserved edge, and how many spans the table has.
    TableHead,
    // 09: a span.
    Span,
    // 0a: an edge, the rule by which it stayed or left, and the step.
    Reason,
    // 0f: a refusal.
    Refusal,
}

// A row of the table is one number, with a byte for each column: the kind, the byte at which each field starts, and the
// length in bytes. A field ends where the next one starts; an absent field has no bytes.
const TABLE: [u64; ROWS] = [
    0x01_01_03_05_05_05_05,
    0x02_01_03_05_07_0f_0f,
    0x03_01_03_05_07_09_11,
    0x04_01_03_03_03_03_03,
    0x05_01_03_03_03_03_03,
    0x06_01_09_11_11_11_11,
    0x08_01_03_05_07_07_07,
    0x09_01_03_05_06_0e_0e,
    0x0a_01_03_04_06_06_06,
    0x0f_01_02_02_02_02_02,
];

impl Kind {
    // The row of its frames.
    fn row(self) -> usize
        ensures { result ≡ row_of self }
    {
        self as usize
    }
}

// The entries of a kind's row.
pub fn entries_of(kind: Kind) -> u64
    ensures { result ≡ entries_of (row_of kind) }
{
    TABLE[kind.row()]
}

// A column of every row that has these entries.
fn entry_in(entries: u64, column: usize) -> usize
    requires { column < columns }
    ensures { (result < byte_values) × ((row : ℕ) → row < rows → entries ≡ entries_of row → result ≡ entry_of row column) }
{
    let behind = COLUMNS - 1 - column;
    (entries >> (BYTE_BITS * behind)) as usize % BYTE_VALUES
}

// The digit at which a field starts in a line of every row that has these entries; behind the last field, how many
// digits the line has.
pub fn start_in(entries: u64, field: usize) -> usize
    requires { field ≤ fields }
    ensures { (row : ℕ) → row < rows → entries ≡ entries_of row → result ≡ start_of row field }
{
    2 * entry_in(entries, field + 1)
}

// The number of a kind.
pub fn number_of(kind: Kind) -> u64
    ensures { result ≡ kind_of (row_of kind) }
{
    entry_in(entries_of(kind), 0) as u64
}

// The digit of a line at which a field starts; behind the last field, how many digits the line has.
pub fn start_of(kind: Kind, field: usize) -> usize
    requires { field ≤ fields }
    ensures { result ≡ start_of (row_of kind) field }
{
    start_in(entries_of(kind), field)
}

// How many digits a field has.
pub fn digits_of(kind: Kind, field: usize) -> usize
    requires { field < fields }
    ensures { result ≡ digits_of (row_of kind) field }
{
    start_of(kind, field + 1) - start_of(kind, field)
}

// How many bytes a line has, with its line feed.
pub fn length_of(kind: Kind) -> usize
    ensures { result ≡ line_length (row_of kind) }
{
    start_of(kind, FIELDS) + 1
}
