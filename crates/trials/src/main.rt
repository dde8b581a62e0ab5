// Runs the services but the chain check on the texts of document 01's district examples, and on a wrong text for each
// refusal.
#![tactic(auto)]

use audit::audit_list;
use replies::say;
use std::io;
use thinning::check_network;

mod binder;
mod reserving;
mod solver;
mod tally;

// Says what a network text is, and how the check answers it.
fn network(rt: &impl Print, what: &str, text: &[u8]) -> io::Result<()> {
    say(rt, what, "accepted", check_network(text))
}

// Says what a list is, and how its audit answers.
fn list(rt: &impl Print, what: &str, text: &[u8], listed: &[u8]) -> io::Result<()> {
    match audit_list(text, listed) {
        Ok(answers) => {
            let joined = if answers.connected {
                "joined"
            } else {
                "not joined"
            };
            println!(rt;
                "{what}: {joined}, {}, critical {}",
                answers.reached, answers.bridges
            )
        }
        Err(refusal) => println!(rt; "{what}: {refusal}"),
    }
}

fn networks(rt: &impl Print) -> io::Result<()> {
    network(rt, "no text", b"")?;
    network(
        rt,
        "T without its last feed",
        b"0100030000\n020000000000010000000000000007\n020001000000010000000000000004\n020002000000020000000000000001\n\
            020003000000020000000000000002\n020004000100020000000000000006\n020005000100020000000000000003",
    )?;
    network(rt, "one cabinet", b"0100010000\n")?;
    network(rt, "257 cabinets", b"0101010000\n")?;
    network(rt, "T with cable 6 reserved", b"0100030006\n")?;
    network(
        rt,
        "T with cable 5 reserved",
        b"0100030005\n020000000000010000000000000007\n020001000000010000000000000004\n020002000000020000000000000001\n\
            020003000000020000000000000002\n020004000100020000000000000006\n020005000100020000000000000003\n",
    )?;
    network(
        rt,
        "a cable from 1 to 0",
        b"0100020000\n020000000100000000000000000001\n",
    )?;
    network(
        rt,
        "0-1 three times, 0-2 twice, 1-2",
        b"0100030000\n020000000000010000000000000001\n020001000000010000000000000001\n020002000000010000000000000001\n\
            020003000000020000000000000001\n020004000000020000000000000001\n020005000100020000000000000001\n",
    )?;
    network(
        rt,
        "0-1 three times, 2-3 three times, 0-2, 1-3",
        b"0100040000\n020000000000010000000000000001\n020001000000010000000000000001\n020002000000010000000000000001\n\
            020003000200030000000000000001\n020004000200030000000000000001\n020005000200030000000000000001\n\
            020006000000020000000000000001\n020007000100030000000000000001\n",
    )
}

// Costs: their limits, one beyond each, far outside, and in four bytes.
fn costs(rt: &impl Print) -> io::Result<()> {
    network(
        rt,
        "costs 1,000,000,000,000 and -1,000,000,000,000",
        b"0100020000\n02000000000001000000e8d4a51000\n02000100000001ffffff172b5af000\n020002000000010000000000000001\n\
            020003000000010000000000000001\n",
    )?;
    network(
        rt,
        "cost 1,000,000,000,001",
        b"0100020000\n02000000000001000000e8d4a51001\n",
    )?;
    network(
        rt,
        "cost -1,000,000,000,001",
        b"0100020000\n02000000000001ffffff172b5aefff\n",
    )?;
    network(
        rt,
        "the highest cost that eight bytes say",
        b"0100020000\n020000000000017fffffffffffffff\n",
    )?;
    network(
        rt,
        "the lowest cost that eight bytes say",
        b"0100020000\n020000000000018000000000000000\n",
    )?;
    network(
        rt,
        "four bytes for a cost",
        b"0100020000\n0200000000000100000001\n0200010000000100000001\n0200020000000100000001\n\
            0200030000000100000001\n",
    )
}

// Lists of T's cables.
fn lists(rt: &impl Print, text: &[u8]) -> io::Result<()> {
    list(rt, "list 1, 2, 5", text, b"050001\n050002\n050005\n")?;
    list(rt, "list 1, 2", text, b"050001\n050002\n")?;
    list(rt, "list 4, 5", text, b"050004\n050005\n")?;
    list(rt, "empty list", text, b"")?;
    list(rt, "list 2, 1", text, b"050002\n050001\n")?;
    list(rt, "list 6", text, b"050006\n")?;
    list(rt, "a line of a list cut off", text, b"050001\n05000")?;
    list(rt, "a list over no network", b"", b"")
}

// Lists that leave islands, of T and of the district of four cabinets.
fn islands(rt: &impl Print, text: &[u8], four: &[u8]) -> io::Result<()> {
    list(rt, "list 4", text, b"050004\n")?;
    list(
        rt,
        "four cabinets, list 0, 1, 2",
        four,
        b"050000\n050001\n050002\n",
    )
}

fn main(rt: HostRuntime) -> io::Result<()> {
    networks(&rt)?;
    costs(&rt)?;
    tally::run(&rt)?;
    let printed =
        b"0100030000\n020000000000010000000000000007\n020001000000010000000000000004\n020002000000020000000000000001\n\
            020003000000020000000000000002\n020004000100020000000000000006\n020005000100020000000000000003\n";
    lists(&rt, printed)?;
    let four =
        b"0100040004\n020000000000010000000000000002\n020001000000010000000000000005\n020002000200030000000000000001\n\
            020003000200030000000000000004\n020004000000020000000000000009\n020005000100030000000000000003\n\
            020006000000030000000000000006\n020007000100020000000000000002\n";
    islands(&rt, printed, four)?;
    binder::run(&rt, printed)?;
    reserving::run(&rt, printed)?;
    solver::run(&rt)
}
