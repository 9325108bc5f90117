// The calls on a follower, and what they answer.
use codes::{EventCode, Lamp, ShortSell, Side, Trading};
use following::{Counts, Ending};

/// A question that the book answers: the last event, a stock's two states, or the orders of a stock's side. A stock is
/// named by the bytes of its symbol.
#[derive(Clone, Copy)]
pub enum Question<'c> {
    Event,
    States(&'c [u8]),
    Orders(&'c [u8], Side),
}

/// A call on a follower; `S` is the source that a repair brings.
#[derive(Drop)]
pub enum Call<'c, S> {
    StartAtOne,
    StartBySnapshot,
    Stop,
    Packet(&'c [u8]),
    Snapshot(&'c [u8]),
    /// the source, and how many messages may be fetched from it
    Repair(&'c mut S, u32),
    Lamp,
    Ask(Question<'c>),
}

/// What an accepted call answers.
#[derive(Clone, Copy)]
pub enum Answer {
    Done,
    Counted(Counts),
    /// the number that a snapshot's End told
    Snapshot(u32),
    Repaired { fetched: u32, ending: Ending },
    Lamp(Lamp),
    Event(Option<EventCode>),
    States(Option<Trading>, Option<ShortSell>),
    /// so many rows were written
    Orders(usize),
}
