// The book, and the questions that it answers.
ghost use Rattle.std.specs.Prelude.{◌≡◌, length};
ghost use Rattle.book.specs.Books.{plain};
ghost use Rattle.book.specs.Questions.{event_in, states_of, orders_of, counted, filled};
ghost use Rattle.running.specs.Runners.{book_in};

use super::Runner;
use book::{Book, BookRow};
use codes::{EventCode, Refusal, ShortSell, Side, Trading};
use wire::Symbol;

impl<'a, 'b> Runner<'a, 'b> {
    /// The book.
    pub fn book(&self) -> &Book<'b>
        ensures { plain result.now ≡ book_in self.now }
    {
        &*self.book
    }

    /// The event code, if one was told.
    pub fn event(&self) -> Option<EventCode>
        ensures { result ≡ event_in (book_in self.now) }
    {
        self.book.event()
    }

    /// The trading state and the short-sell state of a stock.
    pub fn states(&self, symbol: Symbol) -> Result<(Option<Trading>, Option<ShortSell>), Refusal>
        ensures { result ≡ states_of (book_in self.now) symbol }
    {
        self.book.states(symbol)
    }

    /// Writes the orders of a stock on one side at the front of the rows, and answers how many they are.
    pub fn orders(&self, symbol: Symbol, side: Side, rows: &mut [BookRow]) -> Result<usize, Refusal>
        ensures answer { result ≡ counted (orders_of (book_in self.now) symbol side (length rows.old)) }
        ensures rows { rows.new ≡ filled (orders_of (book_in self.now) symbol side (length rows.old)) rows.old }
    {
        self.book.orders(symbol, side, rows)
    }
}
