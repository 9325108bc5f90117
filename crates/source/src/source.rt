// A source of missing messages.
ghost use Rattle.std.specs.Prelude.{◌≡◌};
ghost use Rattle.source.specs.Meanings.{Meaning, answer, written, Sized};

use wire::{MOST_MESSAGE, Session};

// Room for one message of the feed.
pub type MessageBuffer = [u8; MOST_MESSAGE];

/// Where missing messages are fetched from, told by its meaning alone: the name of a session, and which message is held
/// under which number.
pub trait Source {
    ghost meaning: { Self → Meaning };

    fn session(&self) -> Session
        ensures { result ≡ (meaning self.now).session };

    /// Writes the message of a number at the front of `out` and answers its length, or answers that it is not held.
    // The caller lends the room, since no message may cost an allocation.
    fn fetch(&mut self, number: u32, out: &mut MessageBuffer) -> Option<usize>
        ensures stays { meaning self.new ≡ meaning self.old }
        ensures sized { Sized ((meaning self.old).held number) }
        ensures answers { result ≡ answer ((meaning self.old).held number) }
        ensures writes { out.new ≡ written ((meaning self.old).held number) out.old };
}
