// Pages for the site binder: of lists over T, in short buffers, at the limits of costs, and each refusal.
ghost use Rattle.std.specs.Prelude.{◌≤◌};

use base::LONGEST_PAGE;
use page::print_page;
use replies::{say, say_with_text};
use std::io;

// Says what is printed, and writes the page of a list or the refusal.
fn page_of(rt: &impl Print, what: &str, text: &[u8], listed: &[u8]) -> io::Result<()> {
    let mut page = [0u8; LONGEST_PAGE];
    let reply = print_page(text, listed, &mut page);
    say_with_text(rt, what, "printed", reply, &page)
}

// Says what is printed, and how a buffer of so many bytes is answered.
fn in_room(rt: &impl Print, what: &str, text: &[u8], listed: &[u8], room: usize) -> io::Result<()>
    requires { room ≤ 148 }
{
    let mut page = [0u8; 148];
    let reply = print_page(text, listed, &mut page[..room]);
    say(rt, what, "printed", reply.and(Ok(())))
}

// Lists over T, and buffers with just enough room for them or a byte less.
fn lists(rt: &impl Print, text: &[u8]) -> io::Result<()> {
    page_of(rt, "T's plan", text, b"050001\n050002\n050005\n")?;
    in_room(rt, "in 148 bytes", text, b"050001\n050002\n050005\n", 148)?;
    in_room(rt, "in 147 bytes", text, b"050001\n050002\n050005\n", 147)?;
    page_of(rt, "no cable of T", text, b"")?;
    in_room(rt, "in 37 bytes", text, b"", 37)?;
    in_room(rt, "in 36 bytes", text, b"", 36)?;
    page_of(
        rt,
        "every cable of T",
        text,
        b"050000\n050001\n050002\n050003\n050004\n050005\n",
    )
}

// Lists that are refused, also where there is no room.
fn bad_lists(rt: &impl Print, text: &[u8]) -> io::Result<()> {
    page_of(rt, "a page of cables 2, 1", text, b"050002\n050001\n")?;
    page_of(rt, "a page of cable 6", text, b"050006\n")?;
    in_room(rt, "the same in no room", text, b"050006\n", 0)?;
    page_of(rt, "a page of a list cut off", text, b"050001\n05000")?;
    in_room(rt, "the same in no room", text, b"050001\n05000", 0)?;
    page_of(rt, "a page over no network", b"", b"050006\n")
}

// Networks that are refused, and two that read but are not accepted.
fn networks(rt: &impl Print) -> io::Result<()> {
    page_of(rt, "a page of one cabinet", b"0100010000\n", b"050006\n")?;
    page_of(
        rt,
        "a page with cable 6 of T reserved",
        b"0100030006\n",
        b"",
    )?;
    page_of(
        rt,
        "a page with a cable from 1 to 0",
        b"0100020000\n020000000100000000000000000001\n",
        b"",
    )?;
    page_of(
        rt,
        "a page with cost 1,000,000,000,001",
        b"0100020000\n02000000000001000000e8d4a51001\n",
        b"",
    )?;
    page_of(
        rt,
        "a page with cost -1,000,000,000,001",
        b"0100020000\n02000000000001ffffff172b5aefff\n",
        b"",
    )?;
    page_of(
        rt,
        "a page with 0-1 three times, 0-2 twice, 1-2",
        b"0100030000\n020000000000010000000000000001\n020001000000010000000000000001\n020002000000010000000000000001\n\
            020003000000020000000000000001\n020004000000020000000000000001\n020005000100020000000000000001\n",
        b"050000\n050005\n",
    )?;
    page_of(
        rt,
        "a page with 0-1 three times, 2-3 three times, 0-2, 1-3",
        b"0100040000\n020000000000010000000000000001\n020001000000010000000000000001\n020002000000010000000000000001\n\
            020003000200030000000000000001\n020004000200030000000000000001\n020005000200030000000000000001\n\
            020006000000020000000000000001\n020007000100030000000000000001\n",
        b"050007\n",
    )
}

// Costs at their limits, below zero, and none.
fn costs(rt: &impl Print) -> io::Result<()> {
    page_of(
        rt,
        "costs -1,000,000,000,000, 1,000,000,000,000, -1 and 0",
        b"0100020000\n02000000000001ffffff172b5af000\n02000100000001000000e8d4a51000\n02000200000001ffffffffffffffff\n\
            020003000000010000000000000000\n",
        b"050000\n050001\n050002\n050003\n",
    )
}

pub fn run(rt: &impl Print, text: &[u8]) -> io::Result<()> {
    lists(rt, text)?;
    bad_lists(rt, text)?;
    networks(rt)?;
    costs(rt)
}
