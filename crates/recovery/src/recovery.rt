// A reader of recovery sessions.
ghost use Rattle.std.specs.Prelude.{◌≡◌};
ghost use Rattle.std.proofs.Props.{props};
ghost use Rattle.recovery.specs.Places.{Agrees};

use crate::place::Place;
use codes::Refusal;
use session::{Carried, Opened};
use source::{MessageBuffer, Source};
use wire::{MOST, Session};

// The smallest number of a message.
const LEAST: u32 = 1;

/// The messages of a recovery session, read from its bytes as they are fetched.
///
/// It remembers where it fetched last, so that the number after that is found at once.
#[derive(Drop)]
pub struct Recovery<'a> {
    session: Session,
    first: Place<'a>,
    // behind the message that was fetched last
    next: Place<'a>,
    ghost agrees: { Agrees first next } by { Prim.hlevel props },
}

impl<'a> Recovery<'a> {
    ghost use Rattle.std.specs.Prelude.{IfSome};
    ghost use Rattle.std.specs.Option.{option_map};
    ghost use Rattle.wire.specs.Answers.{through};
    ghost use Rattle.source.specs.Meanings.{Sized};
    ghost use Rattle.recovery.specs.Places.{message_of};
    ghost use Rattle.recovery.specs.Recoveries.{recovery_of, meaning_of};

    /// Session bytes that open with a number of at least 1: the first message that they carry has that number.
    pub fn open(bytes: &'a [u8]) -> Result<Recovery<'a>, Refusal>
        ensures { through meaning_of result ≡ recovery_of bytes.now }
    {
        let opened = Opened::read(bytes)
            .filter(|opened| opened.number >= LEAST)
            .ok_or(Refusal::NotOpened)?;
        let first = Place {
            number: opened.number,
            messages: Carried::new(opened.messages),
        };
        Ok(Recovery {
            session: opened.session,
            first,
            next: first,
        })
    }

    // From where it fetched last or, for a number before that, from the first message.
    fn find(&self, number: u32) -> Option<(&'a [u8], Place<'a>)>
        ensures value { option_map message_of result ≡ (meaning_of self.now).held number }
        ensures sized { Sized ((meaning_of self.now).held number) }
        ensures agrees { IfSome result (λ f. Agrees self.now.first f.1) }
    {
        if number > MOST {
            return None;
        }
        if number < self.next.number {
            self.first.walk(number)
        } else {
            self.next.walk(number)
        }
    }
}

impl<'a> Source for Recovery<'a> {
    ghost use Rattle.recovery.specs.Recoveries.{meaning_of};

    ghost meaning = { meaning_of };

    fn session(&self) -> Session {
        self.session
    }

    fn fetch(&mut self, number: u32, out: &mut MessageBuffer) -> Option<usize> {
        let (message, next) = self.find(number)?;
        out[..message.len()].copy_from_slice(message);
        self.next = next;
        Some(message.len())
    }
}
