// A chain text read into columns, and with a column too short.
ghost use Rattle.std.specs.Prelude.{◌≤◌};

use chain_text::read_chain;
use std::io;

// Says what is read, and how many steps T's printed chain has, or the refusal. So many places are lent for z and for its
// cost.
fn read(rt: &impl Print, what: &str, thirds: usize, costs: usize) -> io::Result<()>
    requires { (thirds ≤ 1) × (costs ≤ 1) }
{
    let text = b"030001000400050001fffffffffffffffe\n040003\n";
    let mut v = [0u16; 1];
    let mut x = [0u16; 1];
    let mut y = [0u16; 1];
    let mut z = [0u16; 1];
    let mut cost = [0i64; 1];
    match read_chain(
        3,
        text,
        &mut v,
        &mut x,
        &mut y,
        &mut z[..thirds],
        &mut cost[..costs],
    ) {
        Ok(read) => println!(rt; "{what}: {} step", read.steps),
        Err(refusal) => println!(rt; "{what}: {refusal}"),
    }
}

pub fn run(rt: &impl Print) -> io::Result<()> {
    read(rt, "columns of one place", 1, 1)?;
    read(rt, "no place for z", 0, 1)?;
    read(rt, "no place for its cost", 1, 0)
}
