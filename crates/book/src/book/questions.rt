// The questions that read a book alone.
ghost use Rattle.std.specs.Prelude.{◌≡◌, ◌≤◌, ◌++◌, length, drop};
ghost use Rattle.book.specs.Books.{plain};
ghost use Rattle.book.specs.Questions.{event_in, states_of, orders_of, rows_of, asked, fitting, counted, filled};

use super::Book;
use crate::rows::BookRow;
use codes::{EventCode, Refusal, ShortSell, Side, Trading};
use wire::{OrderRow, Symbol};

// What a question for rows asks for: the orders of a stock on one side.
#[derive(Clone, Copy)]
struct Asked {
    symbol: Symbol,
    side: Side,
}

impl<'a> Book<'a> {
    /// The event code, if one was told.
    pub fn event(&self) -> Option<EventCode>
        ensures { result ≡ event_in (plain self.now) }
    {
        self.event
    }

    /// The trading state and the short-sell state of a stock.
    #[tactic(auto, unfolding(crate::specs::Questions::states_of))]
    pub fn states(&self, symbol: Symbol) -> Result<(Option<Trading>, Option<ShortSell>), Refusal>
        ensures { result ≡ states_of (plain self.now) symbol }
    {
        let stock = self.stock(symbol).ok_or(Refusal::NoStock)?;
        Ok((stock.trading, stock.short))
    }

    /// Writes the orders of a stock on one side, the smallest reference first, at the front of the rows, and answers how
    /// many they are. The rows are lent, since no answer may cost an allocation.
    #[tactic(auto, unfolding(crate::specs::Questions::orders_of))]
    pub fn orders(&self, symbol: Symbol, side: Side, rows: &mut [BookRow]) -> Result<usize, Refusal>
        ensures answer { result ≡ counted (orders_of (plain self.now) symbol side (length rows.old)) }
        ensures rows { rows.new ≡ filled (orders_of (plain self.now) symbol side (length rows.old)) rows.old }
    {
        self.stock(symbol).ok_or(Refusal::NoStock)?;
        Asked { symbol, side }.fill(self.orders.entries(), rows)
    }
}

impl Asked {
    // Whether an order is of the stock and on the side.
    fn takes(self, order: &OrderRow) -> bool
        ensures { result ≡ asked self.symbol self.side order.now }
    {
        order.symbol == self.symbol && order.side == self.side
    }

    // How many of the orders are asked for.
    fn count(self, live: &[OrderRow]) -> usize
        ensures { result ≡ length (rows_of self.symbol self.side live.now) }
    {
        live.iter().filter(|&order| self.takes(order)).count()
    }

    // Writes the orders that are asked for at the front of the rows.
    fn show(self, live: &[OrderRow], rows: &mut [BookRow])
        requires { length (rows_of self.symbol self.side live.now) ≤ length rows.old }
        ensures { rows.new ≡ rows_of self.symbol self.side live.now ++ drop (length (rows_of self.symbol self.side live.now)) rows.old }
    {
        // by the place of each: behind a `zip` with `iter_mut` nothing is known of the rows
        for (n, &order) in live.iter().filter(|&order| self.takes(order)).enumerate() {
            rows[n] = order.into();
        }
    }

    // Writes the orders that are asked for at the front of the rows, if they fit.
    fn fill(self, live: &[OrderRow], rows: &mut [BookRow]) -> Result<usize, Refusal>
        ensures answer { result ≡ counted (fitting (length rows.old) (rows_of self.symbol self.side live.now)) }
        ensures rows { rows.new ≡ filled (fitting (length rows.old) (rows_of self.symbol self.side live.now)) rows.old }
    {
        let needed = self.count(live);
        if needed > rows.len() {
            return Err(Refusal::TooFewRows(needed));
        }
        self.show(live, rows);
        Ok(needed)
    }
}
