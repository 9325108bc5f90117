// Why a message stops the book.
ghost use Rattle.std.specs.Prelude.{◌≡◌, ◌∷◌, [], Some};
ghost use Rattle.codes.specs.Codes.{cause_letter};

use std::fmt;

#[derive(Clone, Copy, PartialEq, Eq)]
pub enum Cause {
    // the length is not its kind's
    Length = b'a' as isize,
    // a field has an unlisted value or lies outside its limits
    Field = b'b' as isize,
    // an added order has the reference of a live one
    LiveReference = b'c' as isize,
    // an added order names a symbol that has no stock
    NoStock = b'd' as isize,
    // an execution or a cancel names no live order
    NoOrder = b'e' as isize,
    // an execution or a cancel takes more shares than remain
    TooManyShares = b'f' as isize,
    // a table has no free slot
    TableFull = b'g' as isize,
    // an execution or a cancel stands in a snapshot
    InSnapshot = b'h' as isize,
}

// Each enum casts itself: std has no trait over these casts.
impl From<Cause> for char {
    ghost from_gives = { λ cause c. c ≡ cause_letter cause };

    fn from(cause: Cause) -> char {
        cause as u8 as char
    }
}

impl fmt::Display for Cause {
    ghost output = { λ cause. Some (cause_letter cause ∷ []) };

    fn fmt<W: fmt::Write>(&self, f: &mut fmt::Formatter<W>) -> fmt::Result {
        let letter = char::from(*self);
        write!(f, "{letter}")
    }
}
