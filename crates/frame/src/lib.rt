// Frames as lines of hexadecimal digits: one table for reader and writer, frames with named fields.
#![tactic(auto)]

mod kinds;
mod line;
mod table;

pub use kinds::{Costs, Dropped, Edge, Head, Kept, Reason, Refusal, Span, Step, TableHead};
pub use line::{Fields, LINE_FEED, put_line, read_line};
pub use table::{Kind, length_of};
