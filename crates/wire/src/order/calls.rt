// The making of an order, and its row.
ghost use Rattle.std.specs.Prelude.{◌≡◌};
ghost use Rattle.std.specs.Option.{option_map};
ghost use Rattle.wire.specs.Messages.{row_of, checked};

use super::{Order, OrderRow};
use crate::bytes::MOST;

const MOST_PRICE: u64 = 1_000_000_000_000_000;

impl Order {
    // The order of a row, where the row is within the limits. An `Option` and no `TryFrom`, since the cause is the caller's.
    pub fn new(row: OrderRow) -> Option<Order>
        ensures { option_map row_of result ≡ checked row }
    {
        if row.reference > MOST {
            return None;
        }
        if row.shares < 1 || row.shares > MOST {
            return None;
        }
        if row.price < 1 || row.price > MOST_PRICE {
            return None;
        }
        Some(Order { row })
    }

    pub fn row(&self) -> OrderRow
        ensures { result ≡ row_of self.now }
    {
        self.row
    }
}
