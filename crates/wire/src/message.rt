// One message of the feed or of a snapshot.
ghost use Rattle.std.specs.Prelude.{◌≡◌, ℕ, ◌<◌, ◌≤◌, length, Ok};
ghost use Rattle.std.specs.Option.{ok_or};
ghost use Rattle.codes.specs.declared.cause.Cause.TheVariants.{Field};
ghost use Rattle.wire.specs.Messages.{feed_message, snapshot_message, saying, telling, of_length, event_at, status_at, add_at, off_at, end_at, shares_off, execute, cancel};
ghost use Rattle.wire.specs.Answers.{through};
ghost use Rattle.wire.specs.Messages as said;

use crate::bytes::{MOST, be32, be64};
use crate::name::Symbol;
use crate::order::{Order, OrderRow};
use codes::{Cause, EventCode, Side, Status};

// A message of the feed.
#[derive(Clone, Copy)]
pub enum Message {
    // T
    Second,
    // S
    Event(EventCode),
    // H
    StockStatus { symbol: Symbol, status: Status },
    // A
    Add(Order),
    // E
    Execute { reference: u32, shares: u32 },
    // X
    Cancel { reference: u32, shares: u32 },
    // any other letter: it changes nothing
    Other,
}

// A message of a snapshot.
#[derive(Clone, Copy)]
pub enum SnapshotMessage {
    // one that the feed may have too
    Message(Message),
    // G: the snapshot is complete, and `next` is the number of the message that follows it
    End { next: u32 },
}

impl Message {
    // The message that the bytes are in the feed, or the first cause that they show by themselves.
    #[tactic(auto, using(std::proofs::lemmas::Bool::Decides::nat_tests), unfolding(crate::specs::Messages::feed_message))]
    pub fn read(bytes: &[u8]) -> Result<Message, Cause>
        ensures { through saying result ≡ feed_message bytes.now }
    {
        let letter = *bytes.get(4).ok_or(Cause::Length)?;
        match letter as char {
            'T' => second(bytes),
            'S' => event(bytes),
            'H' => status(bytes),
            'A' => add(bytes),
            'E' => {
                let (reference, shares) = shares_off(sized::<22>(bytes)?)?;
                Ok(Message::Execute { reference, shares })
            }
            'X' => {
                let (reference, shares) = shares_off(sized::<13>(bytes)?)?;
                Ok(Message::Cancel { reference, shares })
            }
            _ => Ok(Message::Other),
        }
    }
}

// The bytes of a message whose length must be N.
fn sized<const N: usize>(bytes: &[u8]) -> Result<&[u8; N], Cause>
    ensures { through (λ m. m.now) result ≡ of_length N bytes.now (Ok bytes.now) }
{
    <&[u8; N]>::try_from(bytes).map_err(|_| Cause::Length)
}

fn second(bytes: &[u8]) -> Result<Message, Cause>
    ensures { through saying result ≡ of_length 5 bytes.now (Ok said.second) }
{
    sized::<5>(bytes)?;
    Ok(Message::Second)
}

fn event(bytes: &[u8]) -> Result<Message, Cause>
    ensures { through saying result ≡ of_length 6 bytes.now (event_at bytes.now) }
{
    let bytes = sized::<6>(bytes)?;
    let code = EventCode::try_from(bytes[5])?;
    Ok(Message::Event(code))
}

fn status(bytes: &[u8]) -> Result<Message, Cause>
    ensures { through saying result ≡ of_length 13 bytes.now (status_at bytes.now) }
{
    let bytes = sized::<13>(bytes)?;
    let symbol = Symbol::read(&bytes[5..11]).ok_or(Cause::Length)?;
    let status = Status::try_from(bytes[11])?;
    Ok(Message::StockStatus { symbol, status })
}

fn add(bytes: &[u8]) -> Result<Message, Cause>
    ensures { through saying result ≡ of_length 29 bytes.now (add_at bytes.now) }
{
    let bytes = sized::<29>(bytes)?;
    let symbol = Symbol::read(&bytes[14..20]).ok_or(Cause::Length)?;
    let side = Side::try_from(bytes[9])?;
    if bytes[28] != b'Y' {
        return Err(Cause::Field);
    }
    let row = OrderRow {
        reference: be32(bytes, 5),
        side,
        shares: be32(bytes, 10),
        symbol,
        price: be64(bytes, 20),
    };
    Order::new(row).map(Message::Add).ok_or(Cause::Field)
}

// The reference and the shares of an execution or a cancel.
fn shares_off(bytes: &[u8]) -> Result<(u32, u32), Cause>
    requires { 13 ≤ length bytes.now }
    ensures { result ≡ ok_or (shares_off bytes.now) Field }
{
    let reference = be32(bytes, 5);
    let shares = be32(bytes, 9);
    if reference > MOST || shares < 1 || shares > MOST {
        return Err(Cause::Field);
    }
    Ok((reference, shares))
}

impl SnapshotMessage {
    // The message that the bytes are in a snapshot, or the first cause that they show by themselves.
    #[tactic(auto, using(std::proofs::lemmas::Bool::Decides::nat_tests), unfolding(crate::specs::Messages::snapshot_message))]
    pub fn read(bytes: &[u8]) -> Result<SnapshotMessage, Cause>
        ensures { through telling result ≡ snapshot_message bytes.now }
    {
        let letter = *bytes.get(4).ok_or(Cause::Length)?;
        match letter as char {
            'E' | 'X' => Err(Cause::InSnapshot),
            'G' => end(bytes),
            _ => Message::read(bytes).map(SnapshotMessage::Message),
        }
    }
}

fn end(bytes: &[u8]) -> Result<SnapshotMessage, Cause>
    ensures { through telling result ≡ of_length 9 bytes.now (end_at bytes.now) }
{
    let bytes = sized::<9>(bytes)?;
    let next = be32(bytes, 5);
    if next < 1 || next > MOST {
        return Err(Cause::Field);
    }
    Ok(SnapshotMessage::End { next })
}
