// Table texts, as a solver hands them over: read into the columns of the network that a table stands for.
#![tactic(auto)]

mod frames;
mod reader;

pub use reader::{LAID_LIMIT, read_table};
