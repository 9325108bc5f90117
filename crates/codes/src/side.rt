// The side of an order.
ghost use Rattle.std.specs.Prelude.{◌≡◌, ◌∷◌, [], Some};
ghost use Rattle.std.specs.Result.{result_ok};
ghost use Rattle.codes.specs.Codes.{side_letter, side_of};

use crate::unlisted::Unlisted;
use std::fmt;

#[derive(Clone, Copy, PartialEq, Eq)]
pub enum Side {
    Buy = b'B' as isize,
    Sell = b'S' as isize,
}

// Each enum casts itself: std has no trait over these casts.
impl From<Side> for char {
    ghost from_gives = { λ side c. c ≡ side_letter side };

    fn from(side: Side) -> char {
        side as u8 as char
    }
}

impl fmt::Display for Side {
    ghost output = { λ side. Some (side_letter side ∷ []) };

    fn fmt<W: fmt::Write>(&self, f: &mut fmt::Formatter<W>) -> fmt::Result {
        let letter = char::from(*self);
        write!(f, "{letter}")
    }
}

impl TryFrom<u8> for Side {
    type Error = Unlisted;

    ghost try_from_gives = { λ code r. result_ok r ≡ side_of code };

    fn try_from(code: u8) -> Result<Side, Unlisted> {
        match code as char {
            'B' => Ok(Side::Buy),
            'S' => Ok(Side::Sell),
            _ => Err(Unlisted),
        }
    }
}
