// A client's request, read from any bytes.
ghost use Rattle.std.specs.Prelude.{◌≡◌};
ghost use Rattle.request.specs.Requests.{letter_of, login_of, as_login, alone_as, by_letter, request_of, Exactly};

use crate::login::Login;
use codes::Refusal;
use wire::front_length;

#[derive(Clone, Copy)]
pub enum Request {
    Login(Login),
    Logout,
    Heartbeat,
}

impl Request {
    // The request that the bytes are: exactly those that it is written as are read as one.
    pub fn read(bytes: &[u8]) -> Result<Request, Refusal>
        ensures value { result ≡ request_of bytes.now }
        ensures exact { Exactly bytes.now result }
    {
        let letter = letter(bytes)?;
        lettered(letter, bytes)
    }
}

// The letter, where the length in front is that of the bytes behind it.
fn letter(bytes: &[u8]) -> Result<u8, Refusal>
    ensures { result ≡ letter_of bytes.now }
{
    match front_length(bytes, 1, 37) {
        Some(length) if bytes.len() == 2 + length => Ok(bytes[2]),
        _ => Err(Refusal::NoRequest),
    }
}

fn lettered(letter: u8, bytes: &[u8]) -> Result<Request, Refusal>
    ensures { result ≡ by_letter letter bytes.now }
{
    match letter as char {
        'L' => Login::read(bytes)
            .map(Request::Login)
            .ok_or(Refusal::NoRequest),
        'O' => alone(Request::Logout, bytes),
        'R' => alone(Request::Heartbeat, bytes),
        _ => Err(Refusal::NoRequest),
    }
}

// A request of no more than its letter.
fn alone(request: Request, bytes: &[u8]) -> Result<Request, Refusal>
    ensures { result ≡ alone_as request bytes.now }
{
    if bytes.len() != 3 {
        return Err(Refusal::NoRequest);
    }
    Ok(request)
}
