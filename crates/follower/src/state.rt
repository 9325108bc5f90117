// The states of a follower.
ghost use Rattle.std.specs.Prelude.{◌≡◌, true};
ghost use Rattle.follower.specs.Marks.{marked};

use codes::{Lamp, Refusal};
use running::{Stop, Wanted};
use wire::Session;

// Dark before a start and after a stop, red once a message stopped the book, and else started.
#[derive(Clone, Copy)]
pub(crate) enum State {
    Dark,
    Red(Stop),
    Started(Started),
}

#[derive(Clone, Copy)]
pub(crate) struct Started {
    pub(crate) session: Option<Session>,
    // what the book wants next, none without a book
    pub(crate) wanted: Option<Wanted>,
    // the highest number heard, none before a packet or a snapshot was accepted
    pub(crate) heard: Option<u32>,
    // the wanted number is at most one above the highest heard
    ghost bounded: { marked wanted heard ≡ true },
}

impl State {
    ghost use Rattle.follower.specs.Steps.{started_in};

    // What is started, or the refusal of a call that is for a started follower.
    pub(crate) fn started(self) -> Result<Started, Refusal>
        ensures { result ≡ started_in self }
    {
        match self {
            State::Dark => Err(Refusal::Dark),
            State::Red(_) => Err(Refusal::Red),
            State::Started(started) => Ok(started),
        }
    }
}

impl Started {
    ghost use Rattle.book.specs.Plain.{Plain};
    ghost use Rattle.following.specs.States.{lamp_at};
    ghost use Rattle.follower.specs.Modelled.{wanting_at, is_heard, highest_of};

    // What the lamp shows.
    pub(crate) fn lamp(self) -> Lamp
        ensures { (book : Plain) → result ≡ lamp_at (wanting_at self.wanted book) (is_heard self.heard) (highest_of self.heard) }
    {
        match (self.wanted, self.heard) {
            (Some(wanted), Some(heard)) => {
                let wanted = wanted.number;
                if wanted <= heard {
                    Lamp::Gap { wanted, heard }
                } else {
                    Lamp::Green { wanted }
                }
            }
            _ => Lamp::Waiting,
        }
    }

    // The highest number heard, 0 before any.
    pub(crate) fn highest(self) -> u32
        ensures { result ≡ highest_of self.heard }
    {
        self.heard.unwrap_or(0)
    }
}
