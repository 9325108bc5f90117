// An order of the book: a plain row, and the value whose type says that it is within the limits.
ghost use Rattle.std.specs.Prelude.{◌≡◌, true};
ghost use Rattle.wire.specs.Limits.{in_range};

use crate::name::Symbol;
use codes::Side;

mod calls;

// An order as a table's slot holds it: any numbers.
#[derive(Clone, Copy, PartialEq, Eq)]
pub struct OrderRow {
    pub reference: u32,
    pub side: Side,
    pub shares: u32,
    pub symbol: Symbol,
    pub price: u64,
}

// An order within the limits: a reference of 4 bytes, some shares, and a price that the house allows.
// One is made from an Add Order message, or from a plain row after a check.
#[derive(Clone, Copy)]
pub struct Order {
    row: OrderRow,
    ghost within: { in_range row.reference row.shares row.price ≡ true },
}
