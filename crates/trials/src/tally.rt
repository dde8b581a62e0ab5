// Networks with a fifth cable early: how the check answers, and how far the text reads with which tally.
use super::network;
use base::{EDGE_LIMIT, LONGEST_NETWORK, VERTEX_LIMIT};
use loading::one_pass;
use network_text::write_network;
use std::io;

// Says how the check answers a network text, how many cables are read before
// the place of the refusal, and how many of them are at cabinets 0, 1 and 2.
fn tallied(rt: &impl Print, what: &str, text: &[u8]) -> io::Result<()> {
    network(rt, what, text)?;
    let pass = one_pass(text);
    let (first, second, third) = (pass.tally[0], pass.tally[1], pass.tally[2]);
    println!(rt;
        "  cables read: {}, up to byte {}, at cabinets 0, 1, 2: {first} {second} {third}",
        pass.read, pass.place
    )
}

// Five cables between cabinets 0 and 1 of three, and an error in the last frame, behind it, or none.
fn fifth_cables(rt: &impl Print) -> io::Result<()> {
    tallied(
        rt,
        "0-1 five times, and a cable from 2 to 0",
        b"0100030000\n020000000000010000000000000001\n020001000000010000000000000001\n020002000000010000000000000001\n\
            020003000000010000000000000001\n020004000000010000000000000001\n020005000200000000000000000001\n",
    )?;
    tallied(
        rt,
        "0-1 five times, and cost 1,000,000,000,001",
        b"0100030000\n020000000000010000000000000001\n020001000000010000000000000001\n020002000000010000000000000001\n\
            020003000000010000000000000001\n020004000000010000000000000001\n02000500010002000000e8d4a51001\n",
    )?;
    tallied(
        rt,
        "0-1 five times, and a broken line",
        b"0100030000\n020000000000010000000000000001\n020001000000010000000000000001\n020002000000010000000000000001\n\
            020003000000010000000000000001\n020004000000010000000000000001\n02000500010002000000000000000\n",
    )?;
    tallied(
        rt,
        "0-1 five times, 1-2, and a byte left over",
        b"0100030000\n020000000000010000000000000001\n020001000000010000000000000001\n020002000000010000000000000001\n\
            020003000000010000000000000001\n020004000000010000000000000001\n020005000100020000000000000001\n0",
    )?;
    tallied(
        rt,
        "0-1 five times, 1-2",
        b"0100030000\n020000000000010000000000000001\n020001000000010000000000000001\n020002000000010000000000000001\n\
            020003000000010000000000000001\n020004000000010000000000000001\n020005000100020000000000000001\n",
    )
}

// Every cable of 256 cabinets between the first two.
fn most_cables(rt: &impl Print) -> io::Result<()> {
    let low = [0u16; EDGE_LIMIT];
    let high = [1u16; EDGE_LIMIT];
    let cost = [0i64; EDGE_LIMIT];
    let mut text = [0u8; LONGEST_NETWORK];
    let what = "0-1 512 times, of 256 cabinets";
    match write_network(VERTEX_LIMIT, 0, &low, &high, &cost, &mut text) {
        Ok(length) => tallied(rt, what, &text[..length]),
        Err(refusal) => println!(rt; "{what}: {refusal}"),
    }
}

pub fn run(rt: &impl Print) -> io::Result<()> {
    fifth_cables(rt)?;
    most_cables(rt)
}
