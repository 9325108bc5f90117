// The trading state of a stock.
ghost use Rattle.std.specs.Prelude.{◌≡◌, ◌∷◌, [], Some};
ghost use Rattle.codes.specs.Codes.{trading_letter};

use std::fmt;

#[derive(Clone, Copy, PartialEq, Eq)]
pub enum Trading {
    Halted = b'H' as isize,
    Open = b'T' as isize,
}

// Each enum casts itself: std has no trait over these casts.
impl From<Trading> for char {
    ghost from_gives = { λ state c. c ≡ trading_letter state };

    fn from(state: Trading) -> char {
        state as u8 as char
    }
}

impl fmt::Display for Trading {
    ghost output = { λ state. Some (trading_letter state ∷ []) };

    fn fmt<W: fmt::Write>(&self, f: &mut fmt::Formatter<W>) -> fmt::Result {
        let letter = char::from(*self);
        write!(f, "{letter}")
    }
}
