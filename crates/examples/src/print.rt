// Printing a network's ports, partners, cables and kept cables, a line for each.
ghost use Rattle.std.specs.Prelude.{◌≤◌};
ghost use Rattle.base.specs.Limits.{vertex_limit, edge_limit};

use super::ports::degrees_of;
use base::VERTEX_LIMIT;
use graph::{Kept, Network};
use incidence::{all_four, partners_at};
use std::io;

// How many cables each of the first cabinets has.
fn ports(rt: &impl Print, degrees: &[u16; VERTEX_LIMIT], vertices: usize) -> io::Result<()>
    requires { vertices ≤ vertex_limit }
{
    print!(rt; "ports")?;
    for degree in &degrees[..vertices] {
        print!(rt; " {degree}")?;
    }
    println!(rt;)
}

// A network's ports, and whether refusal 6 meets it.
pub fn overview(rt: &impl Print, g: Network) -> io::Result<()>
    requires { (g.vertices ≤ vertex_limit) × (g.edges ≤ edge_limit) }
{
    let degrees = degrees_of(g);
    ports(rt, &degrees, g.vertices)?;
    if all_four(&degrees, g.vertices) {
        println!(rt; "every cabinet has four cables")
    } else {
        println!(rt; "refusal 6")
    }
}

// The partners at a cabinet that has three.
pub fn partners(rt: &impl Print, g: Network, v: u8) -> io::Result<()>
    requires { g.edges ≤ edge_limit }
{
    let found = partners_at(g, v);
    println!(rt;
        "partners at {v}: {} {} {}",
        found.first, found.second, found.third
    )
}

// Every cable's ends and working cost; a retired one has both ends at the cabinet that left.
pub fn cables(rt: &impl Print, g: Network) -> io::Result<()>
    requires { g.edges ≤ edge_limit }
{
    for e in 0..g.edges {
        let (low, high, cost) = (g.low[e], g.high[e], g.cost[e]);
        println!(rt; "cable {e} runs from {low} to {high} at cost {cost}")?;
    }
    Ok(())
}

// The numbers of the kept cables.
pub fn kept(rt: &impl Print, k: Kept) -> io::Result<()> {
    print!(rt; "kept")?;
    for (e, kept) in k.marks.iter().enumerate() {
        if *kept {
            print!(rt; " {e}")?;
        }
    }
    println!(rt;)
}
