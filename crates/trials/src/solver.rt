// Tables of a solver: checked, planned and written as network texts, with a wrong table for each refusal.
use base::{LONGEST_CHAIN, LONGEST_KEPT, LONGEST_NETWORK};
use replies::{say, say_with_text};
use std::io;
use tables::{check_table, plan_table, table_network};

// Says what a table is, and how its check answers.
fn table(rt: &impl Print, what: &str, text: &[u8]) -> io::Result<()> {
    say(rt, what, "accepted", check_table(text))
}

// Says what a table is, and writes the network text that it stands for, or the refusal.
fn network(rt: &impl Print, what: &str, text: &[u8]) -> io::Result<()> {
    let mut network = [0u8; LONGEST_NETWORK];
    let reply = table_network(text, &mut network);
    say_with_text(rt, what, "written", reply, &network)
}

// The same with room for all bytes of a network of two vertices but the last.
fn network_short(rt: &impl Print, what: &str, text: &[u8]) -> io::Result<()> {
    let mut network = [0u8; 134];
    let reply = table_network(text, &mut network);
    say(rt, what, "written", reply.and(Ok(())))
}

// Says what a table is, and writes the texts of its plan, or the refusal.
fn plan(rt: &impl Print, what: &str, text: &[u8]) -> io::Result<()> {
    let mut chain = [0u8; LONGEST_CHAIN];
    let mut kept = [0u8; LONGEST_KEPT];
    match plan_table(text, &mut chain, &mut kept) {
        Ok(lengths) => {
            println!(rt; "{what}: planned")?;
            rt.write_all(&chain[..lengths.chain])?;
            rt.write_all(&kept[..lengths.kept])
        }
        Err(refusal) => println!(rt; "{what}: {refusal}"),
    }
}

// The same with room for all bytes of the kept text of two edges but the last.
fn plan_short(rt: &impl Print, what: &str, text: &[u8]) -> io::Result<()> {
    let mut chain = [0u8; 22];
    let mut kept = [0u8; 48];
    let reply = plan_table(text, &mut chain, &mut kept);
    say(rt, what, "planned", reply.and(Ok(())))
}

// Heads: their form, how many vertices, the reserved edge, how many spans.
fn heads(rt: &impl Print) -> io::Result<()> {
    table(rt, "no table", b"")?;
    table(
        rt,
        "a network for a table",
        b"0100020000\n020000000000010000000000000005\n",
    )?;
    table(rt, "a table of one cabinet", b"08000100000000\n")?;
    table(rt, "a table of 257 cabinets", b"08010100000000\n")?;
    table(
        rt,
        "cable 4 of two cabinets reserved",
        b"08000200040001\n0900000001040000000000000005\n",
    )?;
    table(
        rt,
        "cable 3 of two cabinets reserved",
        b"08000200030001\n0900000001040000000000000005\n",
    )?;
    table(rt, "five spans for two cabinets", b"08000200000005\n")?;
    table(
        rt,
        "four spans for two cabinets, none there",
        b"08000200000004\n",
    )?;
    table(rt, "five spans, and cable 4 reserved", b"08000200040005\n")
}

// Spans: their ends, weights and order.
fn spans(rt: &impl Print) -> io::Result<()> {
    table(
        rt,
        "a span from 1 to 1",
        b"08000200000001\n0900010001040000000000000005\n",
    )?;
    table(
        rt,
        "a span from 1 to 0",
        b"08000200000001\n0900010000040000000000000005\n",
    )?;
    table(
        rt,
        "a span from 0 to 2",
        b"08000200000001\n0900000002040000000000000005\n",
    )?;
    table(
        rt,
        "weight 0",
        b"08000200000001\n0900000001000000000000000005\n",
    )?;
    table(
        rt,
        "weight 5",
        b"08000200000001\n0900000001050000000000000005\n",
    )?;
    table(
        rt,
        "span 0-1 twice",
        b"08000200000002\n0900000001020000000000000005\n0900000001020000000000000005\n",
    )?;
    table(
        rt,
        "span 0-1 behind 0-2",
        b"08000300000002\n0900000002020000000000000001\n0900000001020000000000000007\n",
    )?;
    table(
        rt,
        "span 0-2 behind 1-2",
        b"08000300000002\n0900010002020000000000000003\n0900000002020000000000000001\n",
    )
}

// Spans: their costs, and which of several faults counts.
fn costs(rt: &impl Print) -> io::Result<()> {
    table(
        rt,
        "a span of cost 1,000,000,000,001",
        b"08000200000001\n090000000104000000e8d4a51001\n",
    )?;
    table(
        rt,
        "a span of cost 1,000,000,000,000",
        b"08000200000001\n090000000104000000e8d4a51000\n",
    )?;
    table(
        rt,
        "a span of cost -1,000,000,000,001",
        b"08000200000001\n090000000104ffffff172b5aefff\n",
    )?;
    table(
        rt,
        "a span of cost -1,000,000,000,000",
        b"08000200000001\n090000000104ffffff172b5af000\n",
    )?;
    table(
        rt,
        "a span of the highest cost that eight bytes say",
        b"08000200000001\n0900000001047fffffffffffffff\n",
    )?;
    table(
        rt,
        "a span of the lowest cost that eight bytes say",
        b"08000200000001\n0900000001048000000000000000\n",
    )?;
    table(
        rt,
        "ends, weight and cost wrong",
        b"08000200000001\n090000000205000000e8d4a51001\n",
    )?;
    table(
        rt,
        "weight and cost wrong",
        b"08000200000001\n090000000105000000e8d4a51001\n",
    )
}

// What is told behind the last span: bytes left over, the total, the network.
fn totals(rt: &impl Print) -> io::Result<()> {
    table(
        rt,
        "a total of 3",
        b"08000200000001\n0900000001030000000000000005\n",
    )?;
    table(
        rt,
        "a total of 5",
        b"08000300000002\n0900000001040000000000000005\n0900000002010000000000000005\n",
    )?;
    table(
        rt,
        "a total of 7",
        b"08000300000002\n0900000001040000000000000005\n0900000002030000000000000005\n",
    )?;
    table(
        rt,
        "a total of 3, and a byte left over",
        b"08000200000001\n0900000001030000000000000005\n0",
    )?;
    table(
        rt,
        "a span with four bytes for a cost",
        b"08000200000001\n09000000010400000005\n",
    )?;
    table(
        rt,
        "a span cut off",
        b"08000200000001\n090000000104000000000000000",
    )?;
    table(
        rt,
        "0-1 three times, 0-2 twice, 1-2, as spans",
        b"08000300000003\n0900000001030000000000000001\n0900000002020000000000000001\n0900010002010000000000000001\n",
    )?;
    table(
        rt,
        "0-1 three times, 0-2, 1-3, 2-3 three times, as spans",
        b"08000400000004\n0900000001030000000000000001\n0900000002010000000000000001\n0900010003010000000000000001\n\
            0900020003030000000000000001\n",
    )
}

pub fn run(rt: &impl Print) -> io::Result<()> {
    heads(rt)?;
    spans(rt)?;
    costs(rt)?;
    totals(rt)?;
    let pair = b"08000200000001\n0900000001040000000000000005\n";
    let triangle =
        b"08000300000003\n0900000001020000000000000007\n0900000002020000000000000001\n0900010002020000000000000003\n";
    table(rt, "two cabinets and one span", pair)?;
    network(rt, "its network", pair)?;
    network_short(rt, "its network in 134 bytes", pair)?;
    plan(rt, "its plan", pair)?;
    plan_short(rt, "its plan in 48 bytes", pair)?;
    plan(
        rt,
        "the plan of four cables at -1",
        b"08000200000001\n090000000104ffffffffffffffff\n",
    )?;
    table(rt, "three cabinets and three spans", triangle)?;
    network(rt, "their network", triangle)?;
    plan(rt, "their plan", triangle)?;
    network(
        rt,
        "the network of the table with 0-1 three times, 0-2 twice, 1-2",
        b"08000300000003\n0900000001030000000000000001\n0900000002020000000000000001\n0900010002010000000000000001\n",
    )
}
