// What is asked of who prints: no bytes where a reply is refused.
use super::*;
use std::io::ErrorKind;

// Prints lines, and takes no bytes.
struct LinesAlone;

impl Print for LinesAlone {
    fn print<D: fmt::Display + Drop>(&self, _value: D) -> io::Result<()> {
        Ok(())
    }

    fn println<D: fmt::Display + Drop>(&self, _value: D) -> io::Result<()> {
        Ok(())
    }

    fn write_all(&self, _bytes: &[u8]) -> io::Result<()> {
        Err(ErrorKind::Unsupported.into())
    }
}

#[test]
fn asks_for_bytes_where_something_was_written(rt: HostRuntime) {
    let refused = say_with_text(&LinesAlone, "plan", "done", Err(Refusal::Short), b"text");
    assert!(rt; refused.is_ok());
    let written = say_with_text(&LinesAlone, "plan", "done", Ok(4), b"text");
    assert!(rt; written.is_err());
}
