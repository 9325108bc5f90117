// Whether a stock's short-sell price check is active.
ghost use Rattle.std.specs.Prelude.{◌≡◌, ◌∷◌, [], Some};
ghost use Rattle.codes.specs.Codes.{short_letter};

use std::fmt;

#[derive(Clone, Copy, PartialEq, Eq)]
pub enum ShortSell {
    Active = b'A' as isize,
    Inactive = b'D' as isize,
}

// Each enum casts itself: std has no trait over these casts.
impl From<ShortSell> for char {
    ghost from_gives = { λ state c. c ≡ short_letter state };

    fn from(state: ShortSell) -> char {
        state as u8 as char
    }
}

impl fmt::Display for ShortSell {
    ghost output = { λ state. Some (short_letter state ∷ []) };

    fn fmt<W: fmt::Write>(&self, f: &mut fmt::Formatter<W>) -> fmt::Result {
        let letter = char::from(*self);
        write!(f, "{letter}")
    }
}
