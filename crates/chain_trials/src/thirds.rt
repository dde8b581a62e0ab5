// Chains on T whose z, or whose cost of z, is not what the step gives.
use super::{chain, with_reasons};
use std::io;

// Other cables for z: 4 is x, 5 is y, 0 is reserved, and there is no cable 6.
fn other_cables(rt: &impl Print, text: &[u8]) -> io::Result<()> {
    with_reasons(
        rt,
        "z 2",
        text,
        b"030001000400050002fffffffffffffffe\n040003\n",
    )?;
    chain(
        rt,
        "z 4",
        text,
        b"030001000400050004fffffffffffffffe\n040003\n",
    )?;
    chain(
        rt,
        "z 5",
        text,
        b"030001000400050005fffffffffffffffe\n040003\n",
    )?;
    chain(
        rt,
        "z 0",
        text,
        b"030001000400050000fffffffffffffffe\n040003\n",
    )?;
    chain(
        rt,
        "z 6",
        text,
        b"030001000400050006fffffffffffffffe\n040003\n",
    )
}

// Other costs for z, which gets 4 - 6: on both sides, and of the other sign.
fn near_costs(rt: &impl Print, text: &[u8]) -> io::Result<()> {
    with_reasons(
        rt,
        "cost -1",
        text,
        b"030001000400050001ffffffffffffffff\n040003\n",
    )?;
    chain(
        rt,
        "cost -3",
        text,
        b"030001000400050001fffffffffffffffd\n040003\n",
    )?;
    chain(
        rt,
        "cost 2",
        text,
        b"0300010004000500010000000000000002\n040003\n",
    )
}

// Its cost before the step, with x's added, and both ends of 64 bits.
fn far_costs(rt: &impl Print, text: &[u8]) -> io::Result<()> {
    chain(
        rt,
        "cost 4",
        text,
        b"0300010004000500010000000000000004\n040003\n",
    )?;
    chain(
        rt,
        "cost 10",
        text,
        b"030001000400050001000000000000000a\n040003\n",
    )?;
    chain(
        rt,
        "the highest cost",
        text,
        b"0300010004000500017fffffffffffffff\n040003\n",
    )?;
    chain(
        rt,
        "the lowest cost",
        text,
        b"0300010004000500018000000000000000\n040003\n",
    )
}

// What comes before that refusal, and what behind it.
fn in_order(rt: &impl Print, text: &[u8]) -> io::Result<()> {
    chain(
        rt,
        "x 5, y 4, and cost -2",
        text,
        b"030001000500040001fffffffffffffffe\n040003\n",
    )?;
    chain(
        rt,
        "x 1, y 5, and z 2",
        text,
        b"0300010001000500020000000000000002\n040003\n",
    )?;
    chain(
        rt,
        "z 2, and a broken ending",
        text,
        b"030001000400050002fffffffffffffffe\n04000",
    )?;
    chain(
        rt,
        "z 2, and drops 2",
        text,
        b"030001000400050002fffffffffffffffe\n040002\n",
    )
}

pub fn run(rt: &impl Print, text: &[u8]) -> io::Result<()> {
    other_cables(rt, text)?;
    near_costs(rt, text)?;
    far_costs(rt, text)?;
    in_order(rt, text)
}
