// What a stock status message sets: one of the two states of a stock.
ghost use Rattle.std.specs.Prelude.{◌≡◌};
ghost use Rattle.std.specs.Result.{result_ok};
ghost use Rattle.codes.specs.Codes.{status_of};

use crate::short::ShortSell;
use crate::trading::Trading;
use crate::unlisted::Unlisted;

#[derive(Clone, Copy, PartialEq, Eq)]
pub enum Status {
    // H or T
    Trading(Trading),
    // A or D
    ShortSell(ShortSell),
}

impl TryFrom<u8> for Status {
    type Error = Unlisted;

    ghost try_from_gives = { λ code r. result_ok r ≡ status_of code };

    fn try_from(code: u8) -> Result<Status, Unlisted> {
        match code as char {
            'H' => Ok(Status::Trading(Trading::Halted)),
            'T' => Ok(Status::Trading(Trading::Open)),
            'A' => Ok(Status::ShortSell(ShortSell::Active)),
            'D' => Ok(Status::ShortSell(ShortSell::Inactive)),
            _ => Err(Unlisted),
        }
    }
}
