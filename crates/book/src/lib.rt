//! The venue's displayed orders, one message at a time, over two tables with lent slots.
#![tactic(auto)]

mod book;
mod laws;
mod rows;

pub use book::Book;
pub use laws::laws_stand;
pub use rows::{BookRow, ByReference, BySymbol, Stock};
