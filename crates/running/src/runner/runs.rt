// Messages run on the book in their turn.
ghost use Rattle.std.specs.Prelude.{◌≡◌, ◌≤◌, [], length};
ghost use Rattle.wire.specs.Numbers.{most32};
ghost use Rattle.book.specs.Books.{plain, slots};
ghost use Rattle.book.specs.Plain.{empty};
ghost use Rattle.following.specs.Follower.{run_held, run_wanted};
ghost use Rattle.running.specs.Runners.{held_in, book_in, room_of, Leads, RowsRun};

use super::Runner;
use crate::moves::{Reached, Stop, Wanted};
use crate::rows::{ByNumber, HeldRow};
use book::Book;
use table::Table;

impl<'a, 'b> Runner<'a, 'b> {
    /// The empty book with nothing held.
    pub fn new(book: &'a mut Book<'b>, held: &'a mut [HeldRow]) -> Runner<'a, 'b>
        ensures book { book_in result ≡ empty }
        ensures held { held_in result ≡ [] }
        ensures room { room_of result ≡ record { for_book = slots book.old; for_held = length held.old } }
    {
        book.clear();
        Runner {
            book,
            held: Table::new(held, ByNumber),
        }
    }

    /// Back to the empty book with nothing held.
    pub fn clear(&mut self)
        ensures book { book_in self.new ≡ empty }
        ensures held { held_in self.new ≡ [] }
        ensures room { room_of self.new ≡ room_of self.old }
    {
        self.book.clear();
        self.held.clear();
    }

    // Runs the held messages from the wanted one on, as far as none is missing, and lets go of them in one shift.
    pub(super) fn run_held(&mut self, wanted: Wanted) -> Reached
        ensures { Leads self.old self.new result (run_held (room_of self.old) (book_in self.old) wanted.number (held_in self.old)) }
    {
        let next = run_rows(&mut *self.book, self.held.entries(), wanted)?;
        let ran = next.number - wanted.number;
        // most wanted messages have nothing held behind them, and cost no shift
        if ran > 0 {
            self.held.remove_first(ran as usize);
        }
        Ok(Some(next))
    }

    /// Runs the wanted message, and the held messages that follow it.
    pub fn run_wanted(&mut self, wanted: u32, message: &[u8]) -> Reached
        requires within { wanted ≤ most32 }
        ensures { Leads self.old self.new result (run_wanted (room_of self.old) (record { book = book_in self.old; wanted = wanted }) message.now (held_in self.old)) }
    {
        // Not by `map_err`: its closure would need a premise of its own for the bound that `Stop` carries.
        if let Err(cause) = self.book.run(message) {
            return Err(Stop {
                number: wanted,
                cause,
            });
        }
        self.run_held(Wanted { number: wanted + 1 })
    }
}

// Runs rows from the wanted number on, as far as none is missing, and answers the number wanted then.
fn run_rows(book: &mut Book<'_>, rows: &[HeldRow], wanted: Wanted) -> Result<Wanted, Stop>
    ensures runs { RowsRun (slots book.old) (plain book.old) wanted.number rows.now (plain book.new) result }
    ensures slots { slots book.new ≡ slots book.old }
{
    // The number wanted after each row: a stop tells it, and where no row is left it is the answer.
    let mut next = wanted.number;
    for row in rows {
        if row.number() != next {
            break;
        }
        if let Err(cause) = book.run(row.message()) {
            return Err(Stop {
                number: next,
                cause,
            });
        }
        next += 1;
    }
    Ok(Wanted { number: next })
}
