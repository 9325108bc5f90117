// The lines of a script.
use scripts::Fault;
use std::io;
use std::io::{BufRead, BufReader, Stdin};
use std::str::from_utf8;

// The script on standard input, and the line that was read last, with what ends it.
// One buffer for all lines: an iterator would hand each out in one of its own, at a cost that short lines feel.
#[derive(Drop)]
pub(crate) struct Script {
    input: BufReader<Stdin>,
    line: Vec<u8>,
}

impl Script {
    pub(crate) fn new(rt: &HostRuntime) -> io::Result<Script> {
        Ok(Script {
            input: BufReader::new(rt.alloc(), rt.stdin())?,
            line: Vec::new(rt.alloc()),
        })
    }

    // The next line, or none at the end of the script.
    pub(crate) fn next_line(&mut self) -> io::Result<Option<&[u8]>> {
        self.line.clear();
        if self.input.read_until(b'\n', &mut self.line)? == 0 {
            return Ok(None);
        }
        Ok(Some(self.line.as_slice()))
    }
}

// A line's text without the characters that end it, which is empty for a comment.
pub(crate) fn text(line: &[u8]) -> Result<&str, Fault> {
    if line.starts_with(b"#") {
        return Ok("");
    }
    let text = from_utf8(line).map_err(|_| Fault::BadLine)?;
    match text.strip_suffix('\n') {
        Some(line) => Ok(line.strip_suffix('\r').unwrap_or(line)),
        None => Ok(text),
    }
}
