// What bytes of the venue say, a line to each message.
use codes::{Refusal, Status};
use scripts::{Fault, hex};
use session::{Carried, Opened};
use std::alloc::{AllocError, Global};
use std::io;
use wire::{Message, Order, OrderRow, Packet, SnapshotMessage, Symbol};

pub(crate) fn packet(rt: &HostRuntime, bytes: &[u8]) -> Result<(), Fault> {
    match Packet::read(bytes)? {
        Packet::Heartbeat { next, session } => {
            let name = text(rt.alloc(), &session.bytes())?;
            println!(rt; "heartbeat {next} {name}")?;
        }
        Packet::Data(messages) => {
            for m in messages {
                print!(rt; "{} ", m.number)?;
                match Message::read(m.bytes) {
                    Ok(said) => message(rt, said)?,
                    Err(cause) => println!(rt; "cause {cause}")?,
                }
            }
        }
    }
    Ok(())
}

// A snapshot's session bytes, up to its End message or to what refuses it.
pub(crate) fn snapshot(rt: &HostRuntime, bytes: &[u8]) -> Result<(), Fault> {
    let opened = Opened::read(bytes).ok_or(Refusal::NotOpened)?;
    let mode = opened.number;
    if !matches!(mode, 1 | 2) {
        return Err(Refusal::NotOpened.into());
    }
    let name = text(rt.alloc(), &opened.session.bytes())?;
    println!(rt; "session {name} mode {mode}")?;
    for body in Carried::new(opened.messages) {
        match SnapshotMessage::read(body).map_err(Refusal::SnapshotStopped)? {
            SnapshotMessage::Message(said) => message(rt, said)?,
            SnapshotMessage::End { next } => {
                println!(rt; "end {next}")?;
                return Ok(());
            }
        }
    }
    Err(Refusal::SnapshotCut.into())
}

fn message(rt: &HostRuntime, said: Message) -> io::Result<()> {
    match said {
        Message::Second => println!(rt; "second"),
        Message::Event(code) => println!(rt; "event {code}"),
        Message::StockStatus { symbol, status } => stock(rt, symbol, status),
        Message::Add(order) => add(rt, order),
        Message::Execute { reference, shares } => println!(rt; "execute {reference} {shares}"),
        Message::Cancel { reference, shares } => println!(rt; "cancel {reference} {shares}"),
        Message::Other => println!(rt; "other"),
    }
}

fn stock(rt: &HostRuntime, symbol: Symbol, status: Status) -> io::Result<()> {
    let name = text(rt.alloc(), &symbol.bytes())?;
    match status {
        Status::Trading(state) => println!(rt; "stock {name} trading {state}"),
        Status::ShortSell(state) => println!(rt; "stock {name} short {state}"),
    }
}

fn add(rt: &HostRuntime, order: Order) -> io::Result<()> {
    let OrderRow {
        reference,
        side,
        shares,
        symbol,
        price,
    } = order.row();
    let name = text(rt.alloc(), &symbol.bytes())?;
    println!(rt; "add {reference} {side} {shares} {name} {price}")
}

// A name as its characters without the spaces behind, or in hexadecimal where it has others than those from ! to ~.
fn text(heap: Global, name: &[u8]) -> Result<String, AllocError> {
    let end = name
        .iter()
        .rposition(|b| *b != b' ')
        .map_or(0, |last| last + 1);
    let front = &name[..end];
    if front.is_empty() || !front.iter().all(u8::is_ascii_graphic) {
        let digits = hex::encode(heap, name)?;
        return format!(in heap; "0x{digits}");
    }
    front.iter().map(|b| char::from(*b)).collect(heap)
}
