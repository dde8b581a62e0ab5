// Candidates for the reserved cable: lists over T, in short buffers, and each refusal.
ghost use Rattle.std.specs.Prelude.{◌≤◌};

use candidates::plan_candidates;
use replies::say_with_text;
use std::io;

// Says what is planned, and writes the costs of each candidate's plan into so many bytes, or the refusal.
fn costs_of(
    rt: &impl Print,
    what: &str,
    text: &[u8],
    reserved: &[u16],
    room: usize,
) -> io::Result<()>
    requires { room ≤ 140 }
{
    let mut costs = [0u8; 140];
    let reply = plan_candidates(text, reserved, &mut costs[..room]);
    say_with_text(rt, what, "planned", reply, &costs)
}

// A list over T, and a buffer with just enough room for it or a byte less.
fn lists(rt: &impl Print, text: &[u8]) -> io::Result<()> {
    let repeated = [5u16, 0, 5, 2];
    costs_of(rt, "cables 5, 0, 5, 2 reserved", text, &repeated, 140)?;
    costs_of(rt, "in 139 bytes", text, &repeated, 139)?;
    costs_of(
        rt,
        "no cable of T reserved, in no room",
        text,
        &repeated[..0],
        0,
    )
}

// A number that is no cable, first, in the middle, last and alone, also where there is no room.
fn bad_lists(rt: &impl Print, text: &[u8]) -> io::Result<()> {
    let first = [6u16, 0, 5];
    costs_of(rt, "cables 6, 0, 5 reserved", text, &first, 140)?;
    let middle = [0u16, 6, 5];
    costs_of(rt, "cables 0, 6, 5 reserved", text, &middle, 140)?;
    let last = [0u16, 5, 6];
    costs_of(rt, "cables 0, 5, 6 reserved", text, &last, 140)?;
    costs_of(rt, "the same in no room", text, &last, 0)?;
    let highest = [65_535u16];
    costs_of(rt, "cable 65,535 reserved", text, &highest, 35)
}

// Networks that are refused, whatever the list is and however little room there is.
fn networks(rt: &impl Print) -> io::Result<()> {
    let some = [0u16];
    let bad = [65_535u16];
    costs_of(rt, "candidates over no network", b"", &bad, 0)?;
    costs_of(rt, "no candidates over no network", b"", &bad[..0], 0)?;
    costs_of(rt, "candidates of one cabinet", b"0100010000\n", &bad, 0)?;
    costs_of(
        rt,
        "cable 0 for cable 6 of T",
        b"0100030006\n020000000000010000000000000007\n020001000000010000000000000004\n020002000000020000000000000001\n\
            020003000000020000000000000002\n020004000100020000000000000006\n020005000100020000000000000003\n",
        &some,
        35,
    )?;
    costs_of(
        rt,
        "candidates with a cable from 1 to 0",
        b"0100020000\n020000000100000000000000000001\n",
        &bad,
        0,
    )?;
    costs_of(
        rt,
        "candidates with cost 1,000,000,000,001",
        b"0100020000\n02000000000001000000e8d4a51001\n",
        &bad,
        0,
    )?;
    costs_of(
        rt,
        "candidates with 0-1 three times, 0-2 twice, 1-2",
        b"0100030000\n020000000000010000000000000001\n020001000000010000000000000001\n020002000000010000000000000001\n\
            020003000000020000000000000001\n020004000000020000000000000001\n020005000100020000000000000001\n",
        &bad,
        0,
    )?;
    costs_of(
        rt,
        "candidates with 0-1 three times, 2-3 three times, 0-2, 1-3",
        b"0100040000\n020000000000010000000000000001\n020001000000010000000000000001\n020002000000010000000000000001\n\
            020003000200030000000000000001\n020004000200030000000000000001\n020005000200030000000000000001\n\
            020006000000020000000000000001\n020007000100030000000000000001\n",
        &bad,
        0,
    )
}

pub fn run(rt: &impl Print, text: &[u8]) -> io::Result<()> {
    lists(rt, text)?;
    bad_lists(rt, text)?;
    networks(rt)
}
