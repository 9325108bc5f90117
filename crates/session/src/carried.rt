// The messages of the feed that a session carries.
ghost use Rattle.std.specs.Prelude.{◌≡◌, ◌&&◌, ◌==◌, length};
ghost use Rattle.session.specs.Carried.{message_sized, carried as carriedBy, still_carried, Carries};
ghost use Rattle.session.specs.Sessions.{rest_of};
ghost use Rattle.std.specs.Iterator.{at_most};

use crate::messages::{SessionMessage, SessionMessages};
use wire::{LEAST_MESSAGE, MOST_MESSAGE};

// What a session carries after its opening: the data of its S messages in turn, up to a stray letter, or to data of
// another size than a message has.
#[derive(Clone, Copy)]
pub struct Carried<'a> {
    messages: SessionMessages<'a>,
}

impl<'a> Carried<'a> {
    pub fn new(messages: SessionMessages<'a>) -> Carried<'a>
        ensures { still_carried result ≡ carriedBy (rest_of messages.entry) }
    {
        Carried { messages }
    }
}

impl<'a> Iterator for Carried<'a> {
    type Item = &'a [u8];

    ghost can_next = { λ _. Unit {0} };

    ghost next_gives = { λ s r t. Carries s r t };

    ghost remaining = { λ s. at_most (length s.messages.bytes.now) };

    // Where nothing more is carried, it stays as it is.
    #[tactic(auto, using(crate::proofs::Carrying::carried_none))]
    fn next(&mut self) -> Option<&'a [u8]> {
        let mut messages = self.messages;
        let message = messages.next_told()?;
        if !is_carried(message) {
            return None;
        }
        self.messages = messages;
        Some(message.body)
    }
}

// Whether a session message is S data of the size of a message: 5 to 80 bytes.
fn is_carried(message: SessionMessage<'_>) -> bool
    ensures { result ≡ (message.entry.letter == 83 && message_sized message.entry.body.now) }
{
    message.letter == b'S' && (LEAST_MESSAGE..=MOST_MESSAGE).contains(&message.body.len())
}
