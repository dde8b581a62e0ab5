// Chain texts: the steps and the ending of a chain, read and written.
#![tactic(auto)]

mod chain;

pub use chain::{ReadChain, chain_length, put_chain, read_chain, write_chain};
