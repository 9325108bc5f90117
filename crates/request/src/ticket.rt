// The ticket of an open session.
ghost use Rattle.std.specs.Prelude.{◌≡◌, IfOk};
ghost use Rattle.request.specs.Requests.{login_written, logout_bytes, heartbeat_bytes, Written, sent};

use crate::login::{Login, LoginBytes};
use crate::request::Request;
use codes::Refusal;

// The bytes of a request that is no more than its letter.
pub type LetterBytes = [u8; 3];

// A session that is open. It cannot be copied, made elsewhere or let go: it ends at `logout` or at `lost`.
pub struct Ticket {
    // the place of the lease of a server, which `open` is to take and `logout` and `lost` are to give back
    lease: (),
}

impl Ticket {
    // The bytes of a Login Request, which read back as the login, and the ticket of the session that they open.
    pub fn open(login: Login) -> Result<(Ticket, LoginBytes), Refusal>
        ensures value { sent result ≡ login_written login }
        ensures written { IfOk result (λ opened. Written opened.1 (Request.Login login)) }
    {
        let bytes = login.write()?;
        Ok((Ticket { lease: () }, bytes))
    }

    pub fn heartbeat(&self) -> LetterBytes
        ensures value { result ≡ heartbeat_bytes }
        ensures written { Written result Request.Heartbeat }
    {
        [0, 1, b'R']
    }

    pub fn logout(self) -> LetterBytes
        ensures value { result ≡ logout_bytes }
        ensures written { Written result Request.Logout }
    {
        let Ticket { lease: () } = self;
        [0, 1, b'O']
    }

    // The connection is lost: the session ends, and nothing is written.
    pub fn lost(self) {
        let Ticket { lease: () } = self;
    }
}
