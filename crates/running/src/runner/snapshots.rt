// A snapshot, which builds the book.
ghost use Rattle.std.specs.Prelude.{◌≡◌};
ghost use Rattle.wire.specs.Answers.{through};
ghost use Rattle.wire.specs.Names.{Session};
ghost use Rattle.session.specs.Carried.{still_carried};
ghost use Rattle.book.specs.Books.{plain, slots};
ghost use Rattle.book.specs.Plain.{empty};
ghost use Rattle.book.specs.Runs.{run_there};
ghost use Rattle.following.specs.States.{held_from};
ghost use Rattle.following.specs.Follower.{completed, run_held};
ghost use Rattle.running.specs.Runners.{held_in, book_in, room_of, Leads, snapshot_with};

use super::Runner;
use crate::moves::{Reached, Wanted};
use book::Book;
use codes::Refusal;
use session::Carried;

impl<'a, 'b> Runner<'a, 'b> {
    /// Builds the book of a snapshot's messages, and answers the number that its End tells. What is held stays.
    pub fn load(&mut self, messages: Carried<'_>) -> Result<u32, Refusal>
        ensures loaded { (session : Session) → through (snapshot_with session (book_in self.new)) result ≡ completed session (run_there (room_of self.old).for_book (still_carried messages.entry) empty) }
        ensures held { held_in self.new ≡ held_in self.old }
        ensures room { room_of self.new ≡ room_of self.old }
    {
        load_book(&mut *self.book, messages)
    }

    /// Lets go of the held messages below the number of a snapshot's End, and runs those from it on.
    pub fn complete(&mut self, next: Wanted) -> Reached
        ensures { Leads self.old self.new result (run_held (room_of self.old) (book_in self.old) next.number (held_from next.number (held_in self.old))) }
    {
        self.held.remove_below(next.number);
        self.run_held(next)
    }
}

// Runs a snapshot's messages on the empty book, up to its End.
fn load_book(book: &mut Book<'_>, messages: Carried<'_>) -> Result<u32, Refusal>
    ensures loaded { (session : Session) → through (snapshot_with session (plain book.new)) result ≡ completed session (run_there (slots book.old) (still_carried messages.entry) empty) }
    ensures slots { slots book.new ≡ slots book.old }
{
    book.clear();
    for message in messages {
        // One `match` is shorter than `map_err`, `?` and an `if let` for the End.
        match book.run_snapshot(message) {
            Ok(None) => {}
            Ok(Some(next)) => return Ok(next),
            Err(cause) => return Err(Refusal::SnapshotStopped(cause)),
        }
    }
    Err(Refusal::SnapshotCut)
}
