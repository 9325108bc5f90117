// Reads a session script on standard input, a call to a line, and prints what each line says.
#![tactic(auto)]

mod show;

use scripts::{Client, Fault, hex};
use std::io;
use std::io::{BufRead, BufReader, Stdin};

fn main(rt: HostRuntime) -> io::Result<()> {
    let input = BufReader::new(rt.alloc(), rt.stdin())?;
    let mut client = Client::default();
    let read = script(&rt, input, &mut client);
    let ended = client.end(&rt);
    read.and(ended)
}

fn script(rt: &HostRuntime, input: BufReader<Stdin>, client: &mut Client) -> io::Result<()> {
    for line in input.lines(rt.alloc()) {
        if let Err(fault) = run(rt, line?.as_str(), client) {
            fault.print(rt)?;
        }
    }
    Ok(())
}

// One line of the script.
fn run(rt: &HostRuntime, line: &str, client: &mut Client) -> Result<(), Fault> {
    let Some(line) = client.line(rt, line)? else {
        return Ok(());
    };
    match line.split_once(' ') {
        Some(("packet", digits)) => with_bytes(rt, digits, show::packet),
        Some(("snapshot", digits)) => with_bytes(rt, digits, show::snapshot),
        Some(("request", digits)) => with_bytes(
            rt,
            digits,
            |rt, bytes| scripts::request(rt, bytes),
        ),
        _ => Err(Fault::BadLine),
    }
}

// The bytes that the digits say, `-` or no digits for none, are read as what they are taken for. Each program reads bytes
// in its own way, so that this is not in `scripts`.
fn with_bytes<F>(rt: &HostRuntime, digits: &str, read: F) -> Result<(), Fault>
where
    F: FnOnce(&HostRuntime, &[u8]) -> Result<(), Fault>,
    requires { F.IsAlwaysCallable read }
{
    let written = if digits == "-" { "" } else { digits };
    let bytes = hex::decode(rt.alloc(), written.as_bytes())?.ok_or(Fault::BadLine)?;
    read(rt, bytes.as_slice())
}
