// The book, and what holds of it between any two calls.
ghost use Rattle.std.specs.Prelude.{◌≡◌, true};
ghost use Rattle.table.specs.Tables.{entries};
ghost use Rattle.book.specs.Keys.{all_within};

use crate::rows::{ByReference, BySymbol, Stock};
use codes::EventCode;
use table::Table;
use wire::OrderRow;

mod calls;
mod questions;

/// The stocks and the live orders of one venue, over lent slots.
#[derive(Drop)]
pub struct Book<'a> {
    event: Option<EventCode>,
    stocks: Table<'a, Stock, BySymbol>,
    orders: Table<'a, OrderRow, ByReference>,
    // every live order is within the limits
    ghost sound: { all_within (entries orders) ≡ true },
}
