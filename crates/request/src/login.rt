// The Login Request: its length 37 at 0, the letter L at 2, then its four fields.
ghost use Rattle.std.specs.Prelude.{◌≡◌, ◌+◌, ◌≤◌, ◌++◌, length, take};
ghost use Rattle.request.specs.Requests.{login_of, login_written};

use codes::Refusal;
use session::{read_number, write_number};
use wire::{Session, field};

// The bytes of a Login Request.
pub type LoginBytes = [u8; 39];

#[derive(Clone, Copy)]
pub struct Login {
    pub user: [u8; 6],
    pub password: [u8; 10],
    // the session that is asked for
    pub session: Session,
    // the first message that is asked for, or a snapshot's mode
    pub number: u32,
}

impl Login {
    // The four fields, where the bytes are as many as a login has and the last field says a number.
    pub(crate) fn read(bytes: &[u8]) -> Option<Login>
        ensures { result ≡ login_of bytes.now }
    {
        let bytes = <&LoginBytes>::try_from(bytes).ok()?;
        Some(Login {
            user: field(bytes, 3)?,
            password: field(bytes, 9)?,
            session: Session::read(&bytes[19..29])?,
            number: read_number(&bytes[29..39])?,
        })
    }

    // The bytes of a login. Only the opening of a session writes them.
    pub(crate) fn write(&self) -> Result<LoginBytes, Refusal>
        ensures { result ≡ login_written self.now }
    {
        let number = write_number(self.number)?;
        let mut bytes = [0; 39];
        put(&mut bytes, 0, &[0, 37, b'L']);
        put(&mut bytes, 3, &self.user);
        put(&mut bytes, 9, &self.password);
        put(&mut bytes, 19, &self.session.bytes());
        put(&mut bytes, 29, &number);
        Ok(bytes)
    }
}

// Copies a field to its offset: behind what stands before it, and up to the end where it is the last.
// The offsets stand here as in the layout: a chain over the fields would show none, and would show no more.
#[tactic(auto, using(std::proofs::lemmas::Slice::overwrites))]
fn put(bytes: &mut [u8], at: usize, field: &[u8])
    requires { at + length field.now ≤ length bytes.old }
    ensures front { take (at + length field.now) bytes.new ≡ take at bytes.old ++ field.now }
    ensures last { length bytes.old ≡ at + length field.now → bytes.new ≡ take at bytes.old ++ field.now }
{
    bytes[at..at + field.len()].copy_from_slice(field);
}
