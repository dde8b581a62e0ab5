// The ports of a network's vertices, four each: which edge is plugged in at each port, and where its other end is.
#![tactic(auto)]

use base::VERTEX_LIMIT;

mod split;
mod star;
mod wire;

pub use split::split_ports;
pub use star::{Star, port_at, star_at};
pub use wire::Ports;

// How many ports a vertex has: port p is at vertex p / PORTS.
pub const PORTS: usize = 4;

pub const PORT_LIMIT: usize = PORTS * VERTEX_LIMIT;
