// The library for C, texts: network, chain and list texts are read and written, with 0 or a refusal's number as result.
#![tactic(auto)]

mod chains;
mod lists;
mod networks;

pub use chains::{thinning_read_chain, thinning_write_chain};
pub use lists::{thinning_read_list, thinning_write_list};
pub use networks::{thinning_read_network, thinning_write_network};
