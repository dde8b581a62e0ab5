// Printing what a service replies: a line that says what was asked and how it went, and the text that was written.
#![tactic(auto)]

ghost use Rattle.std.specs.Prelude.{◌≡◌, ◌≤◌, length, IfOk, Some};
ghost use Rattle.replies.specs.Lines.{said, written};

use base::Refusal;
use std::{fmt, io};

#[cfg(test)]
mod tests;

// What is said of a reply: what was asked, and what came of it, or the refusal.
#[derive(Clone, Copy)]
pub struct Said<'a> {
    pub asked: &'a str,
    pub done: &'a str,
    pub reply: Result<(), Refusal>,
}

impl fmt::Display for Said<'_> {
    ghost output = { λ line. Some (said line.asked.now line.done.now line.reply) };

    fn fmt<W: fmt::Write>(&self, f: &mut fmt::Formatter<W>) -> fmt::Result {
        match self.reply {
            Ok(()) => write!(f, "{}: {}", self.asked, self.done),
            Err(refusal) => write!(f, "{}: {refusal}", self.asked),
        }
    }
}

// The bytes that a reply says are written at the start of a buffer: none where it is refused.
fn written(reply: Result<usize, Refusal>, buffer: &[u8]) -> &[u8]
    requires { IfOk reply (λ written. written ≤ length buffer.now) }
    ensures { result.now ≡ written reply buffer.now }
{
    match reply {
        Ok(written) => &buffer[..written],
        Err(_) => &[],
    }
}

// Says what was asked, and what came of it, or the refusal, as `Said` writes it.
pub fn say(rt: &impl Print, asked: &str, done: &str, reply: Result<(), Refusal>) -> io::Result<()> {
    println!(rt; "{}", Said { asked, done, reply })
}

// The same, and then the text that was written to the start of a buffer. Where nothing was written, nothing more is asked
// of who prints.
pub fn say_with_text(
    rt: &impl Print,
    asked: &str,
    done: &str,
    reply: Result<usize, Refusal>,
    buffer: &[u8],
) -> io::Result<()>
    requires { IfOk reply (λ written. written ≤ length buffer.now) }
{
    say(rt, asked, done, reply.and(Ok(())))?;
    if reply.is_err() {
        return Ok(());
    }
    rt.write_all(written(reply, buffer))
}
