// What a packet and a repair answer.
ghost use Rattle.std.specs.Prelude.{Some};
ghost use Rattle.following.specs.Shown.{counts_shown, ending_shown};

use std::fmt::{self, Display, Formatter, Write};

// What became of the messages of a packet.
#[derive(Clone, Copy, Default, PartialEq, Eq)]
pub struct Counts {
    // run on the book, or held
    pub taken: u16,
    // below the wanted number, or already held
    pub repeated: u16,
    // to be held, without a free slot
    pub dropped: u16,
    // behind the message that stopped the book
    pub unread: u16,
}

// How a repair ended.
#[derive(Clone, Copy, PartialEq, Eq)]
pub enum Ending {
    Red,
    Green,
    // as many messages were fetched as it was allowed
    Budget,
    // the source lacks the wanted message
    NotHeld,
}

impl Display for Counts {
    ghost output = { λ counts. Some (counts_shown counts) };

    fn fmt<W: Write>(&self, f: &mut Formatter<W>) -> fmt::Result {
        let Counts {
            taken,
            repeated,
            dropped,
            unread,
        } = *self;
        write!(
            f,
            "taken {taken} repeated {repeated} dropped {dropped} unread {unread}"
        )
    }
}

impl Display for Ending {
    ghost output = { λ how. Some (ending_shown how) };

    fn fmt<W: Write>(&self, f: &mut Formatter<W>) -> fmt::Result {
        f.write_str(match self {
            Ending::Red => "red",
            Ending::Green => "green",
            Ending::Budget => "budget",
            Ending::NotHeld => "not-held",
        })
    }
}
