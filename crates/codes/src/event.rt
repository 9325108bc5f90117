// The events of the trading system, by their code.
ghost use Rattle.std.specs.Prelude.{◌≡◌, ◌∷◌, [], Some};
ghost use Rattle.std.specs.Result.{result_ok};
ghost use Rattle.codes.specs.Codes.{event_letter, event_of};

use crate::unlisted::Unlisted;
use std::fmt;

#[derive(Clone, Copy, PartialEq, Eq)]
pub enum EventCode {
    StartOfMessages = b'O' as isize,
    StartOfTrading = b'S' as isize,
    EndOfSystem = b'E' as isize,
    EndOfMessages = b'C' as isize,
}

// Each enum casts itself: std has no trait over these casts.
impl From<EventCode> for char {
    ghost from_gives = { λ code c. c ≡ event_letter code };

    fn from(code: EventCode) -> char {
        code as u8 as char
    }
}

impl fmt::Display for EventCode {
    ghost output = { λ code. Some (event_letter code ∷ []) };

    fn fmt<W: fmt::Write>(&self, f: &mut fmt::Formatter<W>) -> fmt::Result {
        let letter = char::from(*self);
        write!(f, "{letter}")
    }
}

impl TryFrom<u8> for EventCode {
    type Error = Unlisted;

    ghost try_from_gives = { λ code r. result_ok r ≡ event_of code };

    fn try_from(code: u8) -> Result<EventCode, Unlisted> {
        match code as char {
            'O' => Ok(EventCode::StartOfMessages),
            'S' => Ok(EventCode::StartOfTrading),
            'E' => Ok(EventCode::EndOfSystem),
            'C' => Ok(EventCode::EndOfMessages),
            _ => Err(Unlisted),
        }
    }
}
