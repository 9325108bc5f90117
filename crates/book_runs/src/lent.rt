// What the tests lend to a book.
use book::BookRow;
use codes::Side;
use wire::{OrderRow, Symbol};

// An order that no message added.
pub fn order(symbol: Symbol) -> OrderRow {
    OrderRow {
        reference: 0,
        side: Side::Buy,
        shares: 0,
        symbol,
        price: 0,
    }
}

// A row whose fields are all `n`, so that one that no answer wrote is known.
pub fn row(n: u32) -> BookRow {
    BookRow {
        reference: n,
        shares: n,
        price: n.into(),
    }
}
