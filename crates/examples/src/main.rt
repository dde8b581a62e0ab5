// Runs what document 01's district examples say of ports, partners, steps and going back.
#![tactic(auto)]

mod districts;
mod ports;
mod print;

ghost use Rattle.std.specs.Prelude.{◌<◌};
ghost use Rattle.base.specs.Limits.{edge_limit};

use base::EDGE_LIMIT;
use graph::Kept;
use std::io;

// The set of two kept cables, which an ending leaves.
fn keeping(a: usize, b: usize) -> Kept
    requires { (a < edge_limit) × (b < edge_limit) }
{
    let mut marks = [false; EDGE_LIMIT];
    marks[a] = true;
    marks[b] = true;
    Kept { marks }
}

// T as printed: one step, then the ending drops 3.
#[tactic(auto, unfolding(crate::specs::District::network, graph::specs::Split::split))]
fn run_triangle(rt: &impl Print) -> io::Result<()> {
    println!(rt; "T as printed")?;
    let g = districts::triangle();
    print::overview(rt, g)?;
    print::partners(rt, g, 1)?;
    println!(rt; "step v 1, x 4, y 5")?;
    let last = g.split(1, 4, 5, 1);
    print::cables(rt, last)?;
    println!(rt; "drops 3")?;
    let kept = keeping(1, 2);
    print::kept(rt, kept)?;
    print::kept(rt, kept.lift(4, 5, 1))
}

// The four cabinets: two steps, then the ending drops 1.
#[tactic(auto, unfolding(crate::specs::District::network, graph::specs::Split::split))]
fn run_square(rt: &impl Print) -> io::Result<()> {
    println!(rt; "Four cabinets")?;
    let g = districts::square();
    print::overview(rt, g)?;
    print::partners(rt, g, 2)?;
    println!(rt; "step v 2, x 3, y 2")?;
    let next = g.split(2, 3, 2, 7);
    print::cables(rt, next)?;
    print::partners(rt, next, 3)?;
    println!(rt; "step v 3, x 5, y 7")?;
    let last = next.split(3, 5, 7, 6);
    print::cables(rt, last)?;
    square_back(rt)
}

// The four cabinets' ending, and going back through both steps.
fn square_back(rt: &impl Print) -> io::Result<()> {
    println!(rt; "drops 1")?;
    let mut kept = keeping(0, 6);
    print::kept(rt, kept)?;
    kept = kept.lift(5, 7, 6);
    print::kept(rt, kept)?;
    kept = kept.lift(3, 2, 7);
    print::kept(rt, kept)
}

// The network with cabinets of five and three cables.
#[tactic(auto, unfolding(crate::specs::District::network))]
fn run_uneven(rt: &impl Print) -> io::Result<()> {
    println!(rt; "0-1 three times, 0-2 twice, 1-2")?;
    let g = districts::uneven();
    print::overview(rt, g)
}

// Runs the three examples, one after another.
fn main(rt: HostRuntime) -> io::Result<()> {
    run_triangle(&rt)?;
    run_square(&rt)?;
    run_uneven(&rt)
}
