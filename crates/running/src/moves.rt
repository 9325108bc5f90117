// Where messages lead, and what becomes of them.
ghost use Rattle.std.specs.Prelude.{◌≤◌, suc};
ghost use Rattle.wire.specs.Numbers.{most32};

use codes::Cause;
use following::Ending;

/// The number of the message that a book wants next: at most one above the largest.
#[derive(Clone, Copy, PartialEq, Eq)]
pub struct Wanted {
    pub number: u32,
    pub ghost within: { number ≤ suc most32 },
}

/// The message that stopped the book.
#[derive(Clone, Copy, PartialEq, Eq)]
pub struct Stop {
    pub number: u32,
    pub cause: Cause,
    pub ghost within: { number ≤ most32 },
}

/// Where the messages have led so far: to what the book wants next, none without a book, or to the message that
/// stopped it.
pub type Reached = Result<Option<Wanted>, Stop>;

/// What became of one message of a packet: run or held, there or run before, met by full slots, or behind one that
/// stopped the book.
#[derive(Clone, Copy, PartialEq, Eq)]
pub enum Treated {
    Taken,
    Repeated,
    Dropped,
    Unread,
}

/// What a repair came to.
#[derive(Clone, Copy)]
pub struct Repair {
    pub reached: Reached,
    pub fetched: u32,
    pub ending: Ending,
}
