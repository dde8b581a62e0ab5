// What puts each cable in or out: in two more districts, into short buffers, and over a network for each refusal.
ghost use Rattle.std.specs.Prelude.{◌≤◌};

use reasons::explain_chain;
use replies::say_with_text;
use std::io;

// Says what a chain is, and writes its reasons text into so many bytes, of which four cabinets need all, or the refusal.
pub fn reasons_of(
    rt: &impl Print,
    what: &str,
    text: &[u8],
    proposed: &[u8],
    room: usize,
) -> io::Result<()>
    requires { room ≤ 104 }
{
    let mut reasons = [0u8; 104];
    let reply = explain_chain(text, proposed, &mut reasons[..room]);
    say_with_text(rt, what, "written", reply, &reasons)
}

// Districts that no other chain here is over: two cabinets, which take no step, and T with a cable that is kept as x.
fn districts(rt: &impl Print) -> io::Result<()> {
    reasons_of(
        rt,
        "reasons of two cabinets, costs 5, -1, 3, 3",
        b"0100020000\n020000000000010000000000000005\n02000100000001ffffffffffffffff\n020002000000010000000000000003\n\
            020003000000010000000000000003\n",
        b"040003\n",
        104,
    )?;
    reasons_of(
        rt,
        "reasons of T with cable 1 at 40",
        b"0100030000\n020000000000010000000000000007\n020001000000010000000000000028\n020002000000020000000000000001\n\
            020003000000020000000000000002\n020004000100020000000000000006\n020005000100020000000000000003\n",
        b"0300010004000500010000000000000022\n040001\n",
        104,
    )
}

// T's printed chain in just enough room, in a byte less and in none, and chains that are refused where there is none.
fn rooms(rt: &impl Print, text: &[u8]) -> io::Result<()> {
    let passing = b"030001000400050001fffffffffffffffe\n040003\n";
    reasons_of(rt, "reasons of T in 78 bytes", text, passing, 78)?;
    reasons_of(rt, "in 77 bytes", text, passing, 77)?;
    reasons_of(rt, "in no room", text, passing, 0)?;
    reasons_of(
        rt,
        "drops 2, in no room",
        text,
        b"030001000400050001fffffffffffffffe\n040002\n",
        0,
    )?;
    reasons_of(rt, "no chain, in no room", text, b"", 0)
}

// Says what a network is, and how no chain over it is answered where there is no room.
fn over(rt: &impl Print, what: &str, text: &[u8]) -> io::Result<()> {
    reasons_of(rt, what, text, b"", 0)
}

// A network for each of its refusals, which come before those of the chain and the room.
fn networks(rt: &impl Print) -> io::Result<()> {
    over(rt, "reasons over no network", b"")?;
    over(rt, "reasons of one cabinet", b"0100010000\n")?;
    over(rt, "reasons with cable 6 of T reserved", b"0100030006\n")?;
    over(
        rt,
        "reasons with a cable from 1 to 0",
        b"0100020000\n020000000100000000000000000001\n",
    )?;
    over(
        rt,
        "reasons with cost 1,000,000,000,001",
        b"0100020000\n02000000000001000000e8d4a51001\n",
    )?;
    over(
        rt,
        "reasons with 0-1 three times, 0-2 twice, 1-2",
        b"0100030000\n020000000000010000000000000001\n020001000000010000000000000001\n020002000000010000000000000001\n\
            020003000000020000000000000001\n020004000000020000000000000001\n020005000100020000000000000001\n",
    )?;
    over(
        rt,
        "reasons with 0-1 three times, 2-3 three times, 0-2, 1-3",
        b"0100040000\n020000000000010000000000000001\n020001000000010000000000000001\n020002000000010000000000000001\n\
            020003000200030000000000000001\n020004000200030000000000000001\n020005000200030000000000000001\n\
            020006000000020000000000000001\n020007000100030000000000000001\n",
    )
}

// The districts, the rooms over T, and the networks.
pub fn run(rt: &impl Print, text: &[u8]) -> io::Result<()> {
    districts(rt)?;
    rooms(rt, text)?;
    networks(rt)
}
