// The requests of a client, and the session that it has open.
ghost use Rattle.std.specs.Prelude.{◌≡◌, true, false, cond, ◌||◌, codes, Some, None, Err, is_ok, IfOk, IsErrOf, OnOk};
ghost use Rattle.std.specs.Option.{option_copied};
ghost use Rattle.scripts.specs.Clients.{is_open, NeedsSession};
ghost use Rattle.request.specs.Requests.{request_of};
ghost use Rattle.codes.specs.declared.refusal.Refusal.{Refusal as Why};
ghost use Rattle.scripts.specs.declared.fault.Fault.TheVariants.{Refused};
ghost use Rattle.scripts.specs.Lines.{begins, has_words, handed_back, open_behind};

use crate::fault::Fault;
use crate::{hex, words};
use request::{Login, Request, Ticket};
use std::alloc::Global;
use std::io;
use wire::Session;

// A session is open at most once: its ticket is here until it is logged out or lost.
#[derive(Default)]
pub struct Client {
    session: Option<Ticket>,
}

impl Client {
    // A comment, an empty line or one of the client's is run; any other is handed back.
    pub fn line<'l>(
        &mut self,
        rt: &(impl Print + AllocGlobal),
        line: &'l str,
    ) -> Result<Option<&'l str>, Fault>
        ensures handed_back { IfOk result (λ o. option_copied o ≡ handed_back line.now) }
        ensures session { OnOk result (is_open self.new ≡ open_behind line.now (is_open self.old)) }
    {
        match line {
            "" => {}
            "beat" => self.beat(rt)?,
            "logout" => self.logout(rt)?,
            "lost" => self.lost(rt)?,
            _ if line.starts_with('#') => {}
            _ => return self.with_words(rt, line),
        }
        Ok(None)
    }

    fn with_words<'l>(
        &mut self,
        rt: &(impl Print + AllocGlobal),
        line: &'l str,
    ) -> Result<Option<&'l str>, Fault>
        ensures handed_back { IfOk result (λ o. option_copied o ≡ cond (has_words line.now) None (Some line.now)) }
        ensures session { OnOk result (is_open self.new ≡ (begins (codes "login ") line.now || is_open self.old)) }
    {
        if let Some(words) = line.strip_prefix("say ") {
            println!(rt; "{words}")?;
        } else if let Some(words) = line.strip_prefix("login ") {
            self.login(rt, words)?;
        } else {
            return Ok(Some(line));
        }
        Ok(None)
    }

    // `login USER PASSWORD SESSION NUMBER` opens a session, unless one is open.
    pub fn login(&mut self, rt: &(impl Print + AllocGlobal), words: &str) -> Result<(), Fault>
        ensures opened { OnOk result (is_open self.new ≡ true) }
        ensures once { is_open self.old ≡ true → IsErrOf result Fault.BadLine }
    {
        if self.session.is_some() {
            return Err(Fault::BadLine);
        }
        let login = asked(rt.alloc(), words)?;
        let (ticket, bytes) = Ticket::open(login)?;
        // `self.session = Some(ticket)` would let go of the ticket before, which no assignment may
        match self.session.replace(ticket) {
            None => sent(rt, &bytes),
            Some(_) => unreachable!(),
        }
    }

    // `beat` is a heartbeat for the open session.
    pub fn beat(&self, rt: &(impl Print + AllocGlobal)) -> Result<(), Fault>
        ensures { NeedsSession self.now result }
    {
        let ticket = self.session.as_ref().ok_or(Fault::BadLine)?;
        sent(rt, &ticket.heartbeat())
    }

    // `logout` ends the open session.
    pub fn logout(&mut self, rt: &(impl Print + AllocGlobal)) -> Result<(), Fault>
        ensures needs { NeedsSession self.old result }
        ensures ended { is_open self.new ≡ false }
    {
        let ticket = self.session.take().ok_or(Fault::BadLine)?;
        sent(rt, &ticket.logout())
    }

    // `lost` ends the open session as lost.
    pub fn lost(&mut self, rt: &impl Print) -> Result<(), Fault>
        ensures needs { NeedsSession self.old result }
        ensures ended { is_open self.new ≡ false }
    {
        let lost = self.session.take().ok_or(Fault::BadLine)?;
        lost.lost();
        println!(rt; "lost")?;
        Ok(())
    }

    // The end of the script: a session that is still open is ended as lost.
    pub fn end(self, rt: &impl Print) -> io::Result<()>
        ensures { is_open self ≡ false → is_ok result ≡ true }
    {
        let Client { session } = self;
        match session {
            None => Ok(()),
            Some(ticket) => {
                ticket.lost();
                println!(rt; "lost")
            }
        }
    }
}

// `request BYTES` says what the bytes are as a request.
pub fn request(rt: &(impl Print + AllocGlobal), bytes: &[u8]) -> Result<(), Fault>
    ensures { (why : Why) → request_of bytes.now ≡ Err why → IsErrOf result (Refused why) }
{
    match Request::read(bytes)? {
        Request::Logout => println!(rt; "logout")?,
        Request::Heartbeat => println!(rt; "heartbeat")?,
        Request::Login(login) => {
            let heap = rt.alloc();
            let user = hex::encode(heap, &login.user)?;
            let password = hex::encode(heap, &login.password)?;
            let session = hex::encode(heap, &login.session.bytes())?;
            println!(rt; "login {user} {password} {session} {}", login.number)?
        }
    }
    Ok(())
}

fn sent(rt: &(impl Print + AllocGlobal), bytes: &[u8]) -> Result<(), Fault> {
    let digits = hex::encode(rt.alloc(), bytes)?;
    println!(rt; "request {digits}")?;
    Ok(())
}

// The login that four words ask for.
fn asked(heap: Global, words: &str) -> Result<Login, Fault> {
    let (user, rest) = words.split_once(' ').ok_or(Fault::BadLine)?;
    let (password, rest) = rest.split_once(' ').ok_or(Fault::BadLine)?;
    let (session, number) = rest.split_once(' ').ok_or(Fault::BadLine)?;
    // in their order, so that no word behind a bad one costs memory
    let user = words::exactly::<6>(heap, user)?.ok_or(Fault::BadLine)?;
    let password = words::exactly::<10>(heap, password)?.ok_or(Fault::BadLine)?;
    let session = words::exactly::<10>(heap, session)?.ok_or(Fault::BadLine)?;
    Ok(Login {
        user,
        password,
        session: Session::read(&session).ok_or(Fault::BadLine)?,
        number: words::field(number).ok_or(Fault::BadLine)?,
    })
}
