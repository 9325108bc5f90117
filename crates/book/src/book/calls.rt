// The calls of a book.
ghost use Rattle.std.specs.Prelude.{◌≡◌, ◌≤◌, length, is_some, IfSome, if◌then◌else◌, Some, Err};
ghost use Rattle.std.specs.Option.{option_map};
ghost use Rattle.codes.specs.declared.cause.Cause.TheVariants.{LiveReference};
ghost use Rattle.wire.specs.Messages.{row_of, checked, saying};
ghost use Rattle.book.specs.Books.{plain, slots, lent};
ghost use Rattle.book.specs.Calls.{Ran, RanThere};
ghost use Rattle.book.specs.Plain.{empty, stock_of, order_of, told, added, entered, reduced, taken_off, less, done, ran, ran_there};

use super::Book;
use crate::rows::{ByReference, BySymbol, Stock};
use codes::{Cause, Status};
use table::{NotAdded, Table};
use wire::{Message, Order, OrderRow, SnapshotMessage, Symbol};

impl<'a> Book<'a> {
    /// The empty book over the lent slots.
    pub fn new(stocks: &'a mut [Stock], orders: &'a mut [OrderRow]) -> Book<'a>
        ensures plain { plain result ≡ empty }
        ensures slots { slots result ≡ lent (length stocks.old) (length orders.old) }
    {
        Book {
            event: None,
            stocks: Table::new(stocks, BySymbol),
            orders: Table::new(orders, ByReference),
        }
    }

    /// Back to the empty book, over the same slots.
    pub fn clear(&mut self)
        ensures plain { plain self.new ≡ empty }
        ensures slots { slots self.new ≡ slots self.old }
    {
        self.event = None;
        self.stocks.clear();
        self.orders.clear();
    }

    // The stock of a symbol.
    pub(super) fn stock(&self, symbol: Symbol) -> Option<Stock>
        ensures answer { result ≡ stock_of symbol (plain self.now) }
        ensures there { IfSome result (λ stock. stock_of stock.symbol (plain self.now) ≡ Some stock) }
    {
        self.stocks.get(symbol.bytes())
    }

    // Sets one state of a stock; a new symbol gets a stock where a slot is free.
    fn tell(&mut self, symbol: Symbol, status: Status) -> Result<(), Cause>
        ensures { Ran self.old self.new result (told (slots self.old) (plain self.old) symbol status (stock_of symbol (plain self.old))) }
    {
        match self.stock(symbol) {
            Some(stock) => {
                let _ = self.stocks.replace(stock.with(status));
                Ok(())
            }
            None => self
                .stocks
                .add(Stock::new(symbol).with(status))
                .map_err(|_| Cause::TableFull),
        }
    }

    // The live order of a reference.
    fn order(&self, reference: u32) -> Option<Order>
        ensures answer { option_map row_of result ≡ order_of reference (plain self.now) }
        ensures live { IfSome result (λ order. order_of (row_of order).reference (plain self.now) ≡ Some (row_of order)) }
    {
        Order::new(self.orders.get(reference)?)
    }

    // Adds an order whose symbol has a stock.
    // The stock is looked up first, so that no message costs more than two searches.
    fn add(&mut self, order: Order) -> Result<(), Cause>
        ensures { Ran self.old self.new result (added (slots self.old) (plain self.old) (row_of order)) }
    {
        let row = order.row();
        if self.stock(row.symbol).is_some() {
            return self.enter(order);
        }
        match self.orders.get(row.reference) {
            Some(_) => Err(Cause::LiveReference),
            None => Err(Cause::NoStock),
        }
    }

    // Enters an order where its reference is free and so is a slot. Orders come into the book here alone.
    #[tactic(auto, using(crate::proofs::Live::put_within))]
    fn enter(&mut self, order: Order) -> Result<(), Cause>
        ensures { Ran self.old self.new result (if is_some (order_of (row_of order).reference (plain self.old)) then Err LiveReference else entered (slots self.old) (plain self.old) (row_of order)) }
    {
        // by a match, since neither type is the book's to convert
        self.orders.add(order.row()).map_err(|why| match why {
            NotAdded::Present => Cause::LiveReference,
            NotAdded::Full => Cause::TableFull,
        })
    }

    // Takes shares off the order of a reference, if it has as many.
    fn reduce(&mut self, reference: u32, shares: u32) -> Result<(), Cause>
        ensures { Ran self.old self.new result (reduced (plain self.old) shares (order_of reference (plain self.old))) }
    {
        let order = self.order(reference).ok_or(Cause::NoOrder)?;
        if shares > order.row().shares {
            return Err(Cause::TooManyShares);
        }
        self.take_off(order, shares);
        Ok(())
    }

    // Takes shares off a live order, which leaves when none remain. Live orders change and leave here alone.
    #[tactic(auto, using(crate::proofs::Live::put_within, crate::proofs::Live::without_within))]
    fn take_off(&mut self, order: Order, shares: u32)
        requires live { order_of (row_of order).reference (plain self.old) ≡ Some (row_of order) }
        requires enough { shares ≤ (row_of order).shares }
        ensures plain { plain self.new ≡ taken_off (plain self.old) shares (row_of order) }
        ensures slots { slots self.new ≡ slots self.old }
    {
        let row = order.row();
        match what_is_left(row, shares) {
            Some(rest) => {
                let _ = self.orders.replace(rest.row());
            }
            None => {
                let _ = self.orders.remove(row.reference);
            }
        }
    }

    // Does what a message says.
    fn follow(&mut self, message: Message) -> Result<(), Cause>
        ensures { Ran self.old self.new result (done (slots self.old) (plain self.old) (saying message)) }
    {
        // an arm for each kind, as the venue lists them
        match message {
            Message::Second => Ok(()),
            Message::Event(code) => {
                self.event = Some(code);
                Ok(())
            }
            Message::StockStatus { symbol, status } => self.tell(symbol, status),
            Message::Add(order) => self.add(order),
            Message::Execute { reference, shares } => self.reduce(reference, shares),
            Message::Cancel { reference, shares } => self.reduce(reference, shares),
            Message::Other => Ok(()),
        }
    }

    /// Runs one message of the feed. Where a cause stops it, nothing changes.
    #[tactic(auto, unfolding(crate::specs::Plain::ran))]
    pub fn run(&mut self, message: &[u8]) -> Result<(), Cause>
        ensures { Ran self.old self.new result (ran (slots self.old) (plain self.old) message.now) }
    {
        self.follow(Message::read(message)?)
    }

    /// Runs one message of a snapshot, and answers the next number where it is the End.
    #[tactic(auto, unfolding(crate::specs::Plain::ran_there))]
    pub fn run_snapshot(&mut self, message: &[u8]) -> Result<Option<u32>, Cause>
        ensures { RanThere self.old self.new result (ran_there (slots self.old) (plain self.old) message.now) }
    {
        match SnapshotMessage::read(message)? {
            SnapshotMessage::End { next } => Ok(Some(next)),
            SnapshotMessage::Message(message) => {
                self.follow(message)?;
                Ok(None)
            }
        }
    }
}

// The order with some shares less, if any remain.
fn what_is_left(row: OrderRow, shares: u32) -> Option<Order>
    requires { shares ≤ row.shares }
    ensures { option_map row_of result ≡ checked (less shares row) }
{
    Order::new(OrderRow {
        shares: row.shares - shares,
        ..row
    })
}
