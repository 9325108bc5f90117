// Why a call is refused, with what the refusal names.
ghost use Rattle.std.specs.Prelude.{◌≡◌, Some};
ghost use Rattle.codes.specs.Codes.{numbered, refusal_number};
ghost use Rattle.codes.specs.Texts.{refusal_text};

use crate::cause::Cause;
use crate::lamp::Lamp;
use std::fmt;

// The number of each refusal. Beside `Refusal`, since a variant that holds something takes no value.
#[derive(Clone, Copy, PartialEq, Eq)]
pub enum RefusalNumber {
    Dark = 1,
    NotDark = 2,
    Red = 3,
    ShortPacket = 4,
    PacketNumbers = 5,
    PacketLayout = 6,
    HasBook = 7,
    NotOpened = 8,
    NoGoodBlock = 9,
    OtherSession = 10,
    SnapshotCut = 11,
    SnapshotStopped = 12,
    Waiting = 13,
    NotGreen = 14,
    NoStock = 15,
    TooFewRows = 16,
    NoRequest = 17,
}

#[derive(Clone, Copy, PartialEq, Eq)]
pub enum Refusal {
    // the follower is dark, and the call is neither lamp nor start
    Dark,
    // a start while not dark
    NotDark,
    // the lamp is red, and the call is neither lamp nor stop
    Red,
    // a packet of fewer than 6 bytes
    ShortPacket,
    // a packet's number is 0, its last number is above the limit, or its count is
    PacketNumbers,
    // a heartbeat of another length than 16, or messages that do not fill the packet
    PacketLayout,
    // a snapshot comes when there is a book
    HasBook,
    // session bytes that do not open with a fitting Login Accepted
    NotOpened,
    // a day file without a good block
    NoGoodBlock,
    // a session differs from the known one
    OtherSession,
    // a snapshot ends, or is cut, before its End message
    SnapshotCut,
    // a snapshot's message has a cause
    SnapshotStopped(Cause),
    // a repair while waiting
    Waiting,
    // a question other than the lamp while the lamp is not green
    NotGreen(Lamp),
    // the symbol has no stock
    NoStock,
    // fewer rows than the answer needs, which is named
    TooFewRows(usize),
    // bytes that are no request, or a number to be written that is above the limit
    NoRequest,
}

// The refusal without what it names.
impl From<Refusal> for RefusalNumber {
    ghost from_gives = { λ refusal number. number ≡ numbered refusal };

    fn from(refusal: Refusal) -> RefusalNumber {
        match refusal {
            Refusal::Dark => RefusalNumber::Dark,
            Refusal::NotDark => RefusalNumber::NotDark,
            Refusal::Red => RefusalNumber::Red,
            Refusal::ShortPacket => RefusalNumber::ShortPacket,
            Refusal::PacketNumbers => RefusalNumber::PacketNumbers,
            Refusal::PacketLayout => RefusalNumber::PacketLayout,
            Refusal::HasBook => RefusalNumber::HasBook,
            Refusal::NotOpened => RefusalNumber::NotOpened,
            Refusal::NoGoodBlock => RefusalNumber::NoGoodBlock,
            Refusal::OtherSession => RefusalNumber::OtherSession,
            Refusal::SnapshotCut => RefusalNumber::SnapshotCut,
            Refusal::SnapshotStopped(_) => RefusalNumber::SnapshotStopped,
            Refusal::Waiting => RefusalNumber::Waiting,
            Refusal::NotGreen(_) => RefusalNumber::NotGreen,
            Refusal::NoStock => RefusalNumber::NoStock,
            Refusal::TooFewRows(_) => RefusalNumber::TooFewRows,
            Refusal::NoRequest => RefusalNumber::NoRequest,
        }
    }
}

impl From<Refusal> for u8 {
    ghost from_gives = { λ refusal number. number ≡ refusal_number (numbered refusal) };

    fn from(refusal: Refusal) -> u8 {
        RefusalNumber::from(refusal) as u8
    }
}

// The number, and then what the refusal names.
impl fmt::Display for Refusal {
    ghost output = { λ refusal. Some (refusal_text refusal) };

    fn fmt<W: fmt::Write>(&self, f: &mut fmt::Formatter<W>) -> fmt::Result {
        let number = u8::from(*self);
        match *self {
            Refusal::SnapshotStopped(cause) => write!(f, "{number} {cause}"),
            Refusal::NotGreen(lamp) => write!(f, "{number} {lamp}"),
            Refusal::TooFewRows(rows) => write!(f, "{number} {rows}"),
            _ => write!(f, "{number}"),
        }
    }
}
