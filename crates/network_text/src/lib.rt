// Network texts: read into columns, and written from columns.
#![tactic(auto)]

mod network;

pub use network::{ReadNetwork, read_network, write_network};
