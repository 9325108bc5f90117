// The rows of the two tables, and the row of an answer.
ghost use Rattle.std.specs.Prelude.{◌≡◌};
ghost use Rattle.book.specs.Keys.{reference_of, name_of, by_number, by_name};
ghost use Rattle.book.specs.Questions.{shown};
ghost use Rattle.book.specs.Stocks.{unheard, with_state};
ghost use Rattle.std.specs.Cmp.{nat_cmp_total};
ghost use Rattle.std.specs.Cmp.Lexicographic.{lists_total};
ghost use Rattle.table.proofs.Laws.{total_lawful};

use codes::{ShortSell, Status, Trading};
use std::cmp::Ordering;
use table::Row;
use wire::{OrderRow, Symbol};

/// A stock and its two states, each untold until a message sets it.
#[derive(Clone, Copy)]
pub struct Stock {
    pub symbol: Symbol,
    pub trading: Option<Trading>,
    pub short: Option<ShortSell>,
}

/// A row of an answer: one order of a stock's side.
#[derive(Clone, Copy, PartialEq, Eq)]
pub struct BookRow {
    pub reference: u32,
    pub shares: u32,
    pub price: u64,
}

impl From<OrderRow> for BookRow {
    ghost from_gives = { λ order row. row ≡ shown order };

    fn from(order: OrderRow) -> BookRow {
        BookRow {
            reference: order.reference,
            shares: order.shares,
            price: order.price,
        }
    }
}

/// Stocks in the order of their symbols.
#[derive(Clone, Copy)]
pub struct BySymbol;

/// Orders in the order of their references.
#[derive(Clone, Copy)]
pub struct ByReference;

impl Stock {
    /// A stock of which nothing was told.
    pub fn new(symbol: Symbol) -> Stock
        ensures { result ≡ unheard symbol }
    {
        Stock {
            symbol,
            trading: None,
            short: None,
        }
    }

    // The stock with one of its states set, and the other as it was.
    pub(crate) fn with(self, status: Status) -> Stock
        ensures state { result ≡ with_state status self }
        ensures symbol { result.symbol ≡ self.symbol }
    {
        match status {
            Status::Trading(state) => Stock {
                trading: Some(state),
                ..self
            },
            Status::ShortSell(state) => Stock {
                short: Some(state),
                ..self
            },
        }
    }
}

impl Row<BySymbol> for Stock {
    type Key = [u8; 6];

    ghost key = { name_of };

    ghost order = { by_name };

    ghost lawful = { total_lawful (lists_total nat_cmp_total) };

    fn key_of(&self) -> [u8; 6] {
        self.symbol.bytes()
    }

    fn compare(a: &[u8; 6], b: &[u8; 6]) -> Ordering {
        a.cmp(b)
    }
}

impl Row<ByReference> for OrderRow {
    type Key = u32;

    ghost key = { reference_of };

    ghost order = { by_number };

    ghost lawful = { total_lawful nat_cmp_total };

    fn key_of(&self) -> u32 {
        self.reference
    }

    fn compare(a: &u32, b: &u32) -> Ordering {
        a.cmp(b)
    }
}
