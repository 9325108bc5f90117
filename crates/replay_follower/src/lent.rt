// What is lent to a follower: its slots, and rows for its answers.
use book::{BookRow, Stock};
use codes::Side;
use running::HeldRow;
use std::alloc::{AllocError, Global};
use std::fmt;
use wire::{OrderRow, Symbol};

// How many slots a follower is lent for each table, and how many rows for answers.
#[derive(Clone, Copy)]
pub(crate) struct Slots {
    pub(crate) stocks: usize,
    pub(crate) orders: usize,
    pub(crate) held: usize,
    pub(crate) rows: usize,
}

#[derive(Drop)]
pub(crate) struct Lent {
    pub(crate) stocks: Vec<Stock>,
    pub(crate) orders: Vec<OrderRow>,
    pub(crate) held: Vec<HeldRow>,
    pub(crate) rows: Vec<BookRow>,
}

const NO_ROW: BookRow = BookRow {
    reference: 0,
    shares: 0,
    price: 0,
};

impl fmt::Display for Slots {
    fn fmt<W: fmt::Write>(&self, f: &mut fmt::Formatter<W>) -> fmt::Result {
        write!(
            f,
            "{} {} {} {}",
            self.stocks, self.orders, self.held, self.rows
        )
    }
}

impl Lent {
    // As many of each as the script asks for. What they hold at first means nothing.
    pub(crate) fn new(heap: Global, slots: Slots) -> Result<Lent, AllocError> {
        let symbol = Symbol::read(b"      ").unwrap();
        let order = OrderRow {
            reference: 0,
            side: Side::Buy,
            shares: 0,
            symbol,
            price: 0,
        };
        Ok(Lent {
            stocks: vec![in heap; Stock::new(symbol); slots.stocks]?,
            orders: vec![in heap; order; slots.orders]?,
            held: vec![in heap; HeldRow::EMPTY; slots.held]?,
            rows: vec![in heap; NO_ROW; slots.rows]?,
        })
    }
}
