// Audit lists, read and written.
#![tactic(auto)]

mod list;

pub use list::{read_list, write_list};
