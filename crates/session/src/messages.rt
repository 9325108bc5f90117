// Session messages, and the opening of a session.
ghost use Rattle.std.specs.Prelude.{◌≡◌, ◌<◌, ◌||◌, ◌==◌, length, IfSome};
ghost use Rattle.std.specs.Option.{option_map};
ghost use Rattle.session.specs.Sessions.{session_messages, rest_of, opening, opening_by, login_accepted, opened, Read, Tells};
ghost use Rattle.std.specs.Iterator.{at_most};

use crate::field::read_number;
use wire::{Session, front_length};

// A whole session message: its letter, which may be any byte, and the data behind that.
#[derive(Clone, Copy)]
pub struct SessionMessage<'a> {
    pub letter: u8,
    pub body: &'a [u8],
}

// The one reader of session bytes: the whole messages in turn, up to the end, a cut message or an empty one.
#[derive(Clone, Copy)]
pub struct SessionMessages<'a> {
    bytes: &'a [u8],
}

impl<'a> SessionMessages<'a> {
    pub fn new(bytes: &'a [u8]) -> SessionMessages<'a>
        ensures { rest_of result ≡ session_messages bytes.now }
    {
        SessionMessages { bytes }
    }

    // The next message that is neither debug (+) nor a heartbeat (H). Not by `find`, since what is left behind it is
    // promised too.
    pub(crate) fn next_told(&mut self) -> Option<SessionMessage<'a>>
        ensures told { Tells self.old result self.new }
        ensures shorter { IfSome result (λ _. length self.new.bytes.now < length self.old.bytes.now) }
    {
        while let Some(message) = self.next() {
            if !is_skipped(message.letter) {
                return Some(message);
            }
        }
        None
    }
}

// Whether a letter is that of a debug message or a heartbeat.
fn is_skipped(letter: u8) -> bool
    ensures { result ≡ (letter == 43 || letter == 72) }
{
    matches!(letter, b'+' | b'H')
}

impl<'a> Iterator for SessionMessages<'a> {
    type Item = SessionMessage<'a>;

    ghost can_next = { λ _. Unit {0} };

    ghost next_gives = { λ s r t. Read s r t };

    ghost remaining = { λ s. at_most (length s.bytes.now) };

    fn next(&mut self) -> Option<SessionMessage<'a>> {
        let length = front_length(self.bytes, 1, 32_767)?;
        let letter = self.bytes[2];
        let end = 2 + length;
        let body = &self.bytes[3..end];
        self.bytes = &self.bytes[end..];
        Some(SessionMessage { letter, body })
    }
}

// An open session: its name, the number that it was opened with, and the messages that follow.
#[derive(Clone, Copy)]
pub struct Opened<'a> {
    pub session: Session,
    pub number: u32,
    pub messages: SessionMessages<'a>,
}

impl<'a> Opened<'a> {
    // Session bytes that open, after debug and heartbeat messages, with a Login Accepted.
    #[tactic(auto, using(std::proofs::lemmas::Bool::Decides::nat_tests, crate::proofs::Framing::opening_none, crate::proofs::Framing::opening_on))]
    pub fn read(bytes: &'a [u8]) -> Option<Opened<'a>>
        ensures { option_map opened result ≡ opening (session_messages bytes.now) }
    {
        let mut messages = SessionMessages::new(bytes);
        let message = messages.next_told()?;
        if message.letter != b'A' {
            return None;
        }
        accepted(message.body, messages)
    }
}

fn accepted<'a>(body: &[u8], messages: SessionMessages<'a>) -> Option<Opened<'a>>
    ensures { option_map opened result ≡ login_accepted body.now (rest_of messages.entry) }
{
    if body.len() != 31 {
        return None;
    }
    let session = Session::read(&body[0..10])?;
    let number = read_number(&body[10..20])?;
    Some(Opened {
        session,
        number,
        messages,
    })
}
