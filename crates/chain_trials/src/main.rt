// Runs the chain check and the reasons service on chains over document 01's districts, right ones and a wrong one for
// each refusal, and reads a chain text into columns.
#![tactic(auto)]

use base::LONGEST_KEPT;
use explained::reasons_of;
use replies::{say, say_with_text};
use std::io;
use thinning::check_chain;

mod columns;
mod explained;
mod thirds;

// Says what a chain is, and writes its kept text or the refusal.
fn chain(rt: &impl Print, what: &str, text: &[u8], proposed: &[u8]) -> io::Result<()> {
    let mut kept = [0u8; LONGEST_KEPT];
    let reply = check_chain(text, proposed, &mut kept);
    say_with_text(rt, what, "passes", reply, &kept)
}

// The same, and then its reasons text or the refusal.
fn with_reasons(rt: &impl Print, what: &str, text: &[u8], proposed: &[u8]) -> io::Result<()> {
    chain(rt, what, text, proposed)?;
    reasons_of(rt, "  its reasons", text, proposed, 104)
}

// Says what a chain is, and how the check answers in a byte less than the kept text of three cables takes.
fn chain_short(rt: &impl Print, what: &str, text: &[u8], proposed: &[u8]) -> io::Result<()> {
    let mut kept = [0u8; 55];
    let reply = check_chain(text, proposed, &mut kept);
    say(rt, what, "passes", reply.and(Ok(())))
}

// Chains on T: the printed one, and their form.
fn forms(rt: &impl Print, text: &[u8]) -> io::Result<()> {
    with_reasons(
        rt,
        "T as printed",
        text,
        b"030001000400050001fffffffffffffffe\n040003\n",
    )?;
    with_reasons(rt, "no chain", text, b"")?;
    with_reasons(
        rt,
        "no ending",
        text,
        b"030001000400050001fffffffffffffffe\n",
    )?;
    with_reasons(
        rt,
        "a step of seven bytes",
        text,
        b"03000100040005\n040003\n",
    )?;
    with_reasons(
        rt,
        "four bytes for z's cost",
        text,
        b"030001000400050001fffffffe\n040003\n",
    )
}

// Chains on T: v, x and y.
fn partners(rt: &impl Print, text: &[u8]) -> io::Result<()> {
    with_reasons(
        rt,
        "v 2",
        text,
        b"030002000400050001fffffffffffffffe\n040003\n",
    )?;
    with_reasons(
        rt,
        "y 0",
        text,
        b"030001000400000001fffffffffffffffe\n040003\n",
    )?;
    with_reasons(
        rt,
        "x 1, y 5",
        text,
        b"0300010001000500040000000000000002\n040003\n",
    )?;
    with_reasons(
        rt,
        "x 5, y 4",
        text,
        b"0300010005000400010000000000000001\n040003\n",
    )
}

// Endings on T.
fn endings(rt: &impl Print, text: &[u8]) -> io::Result<()> {
    with_reasons(
        rt,
        "drops 2",
        text,
        b"030001000400050001fffffffffffffffe\n040002\n",
    )?;
    with_reasons(
        rt,
        "drops 2, and a broken ending",
        text,
        b"030001000400050001fffffffffffffffe\n040002",
    )?;
    with_reasons(
        rt,
        "a byte left over",
        text,
        b"030001000400050001fffffffffffffffe\n040003\n0",
    )?;
    chain_short(
        rt,
        "a buffer of 55 bytes",
        text,
        b"030001000400050001fffffffffffffffe\n040003\n",
    )
}

// The district of four cabinets.
fn square(rt: &impl Print, text: &[u8]) -> io::Result<()> {
    with_reasons(
        rt,
        "four cabinets",
        text,
        b"030002000300020007fffffffffffffffe\n0300030005000700060000000000000003\n040001\n",
    )?;
    with_reasons(
        rt,
        "its second step first",
        text,
        b"0300030005000700060000000000000003\n030002000300020007fffffffffffffffe\n040001\n",
    )?;
    with_reasons(
        rt,
        "its second step at v 1",
        text,
        b"030002000300020007fffffffffffffffe\n0300010005000700060000000000000003\n040001\n",
    )?;
    with_reasons(
        rt,
        "cable 3, which has retired, for the second step's z",
        text,
        b"030002000300020007fffffffffffffffe\n0300030005000700030000000000000003\n040001\n",
    )
}

fn main(rt: HostRuntime) -> io::Result<()> {
    let printed =
        b"0100030000\n020000000000010000000000000007\n020001000000010000000000000004\n020002000000020000000000000001\n\
            020003000000020000000000000002\n020004000100020000000000000006\n020005000100020000000000000003\n";
    forms(&rt, printed)?;
    partners(&rt, printed)?;
    thirds::run(&rt, printed)?;
    endings(&rt, printed)?;
    let four =
        b"0100040004\n020000000000010000000000000002\n020001000000010000000000000005\n020002000200030000000000000001\n\
            020003000200030000000000000004\n020004000000020000000000000009\n020005000100030000000000000003\n\
            020006000000030000000000000006\n020007000100020000000000000002\n";
    square(&rt, four)?;
    explained::run(&rt, printed)?;
    columns::run(&rt)
}
