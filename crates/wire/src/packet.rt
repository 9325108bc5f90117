// One packet of the feed: a heartbeat, or data with its messages.
ghost use Rattle.std.specs.Prelude.{◌≡◌, true};
ghost use Rattle.wire.specs.Answers.{through};
ghost use Rattle.wire.specs.Names.{session_of};
ghost use Rattle.wire.specs.Packets.{packet_of, sent, well_numbered, laid_out, unpacked};
ghost use Rattle.wire.specs.Packets as Sent;

use crate::bytes::{MOST, be16, be32};
use crate::messages::Messages;
use crate::name::Session;
use codes::Refusal;

const MOST_COUNT: u16 = 32_767;

#[derive(Clone, Copy)]
pub enum Packet<'a> {
    // nothing is sent now; `next` is the number of the message that comes next
    Heartbeat { next: u32, session: Session },
    // one message or more
    Data(Messages<'a>),
}

impl<'a> Packet<'a> {
    #[tactic(auto, using(std::proofs::lemmas::Bool::Decides::nat_tests), unfolding(crate::specs::Packets::packet_of))]
    pub fn read(bytes: &'a [u8]) -> Result<Packet<'a>, Refusal>
        ensures { through sent result ≡ packet_of bytes.now }
    {
        if bytes.len() < 6 {
            return Err(Refusal::ShortPacket);
        }
        let number = be32(bytes, 0);
        let count = be16(bytes, 4);
        if !well_numbered(number, count) {
            return Err(Refusal::PacketNumbers);
        }
        let rest = &bytes[6..];
        if count == 0 {
            heartbeat(number, rest)
        } else {
            data(number, count, rest)
        }
    }
}

// A number from 1 on, a count within its limit, and a last number (a heartbeat's own) within its limit.
fn well_numbered(number: u32, count: u16) -> bool
    ensures { result ≡ well_numbered number count }
{
    number >= 1
        && count <= MOST_COUNT
        && number <= MOST
        && u32::from(count.saturating_sub(1)) <= MOST - number
}

fn heartbeat(next: u32, rest: &[u8]) -> Result<Packet<'_>, Refusal>
    ensures { through sent result ≡ laid_out (Sent.heartbeat next) (session_of rest.now) }
{
    let session = Session::read(rest).ok_or(Refusal::PacketLayout)?;
    Ok(Packet::Heartbeat { next, session })
}

fn data(number: u32, count: u16, rest: &[u8]) -> Result<Packet<'_>, Refusal>
    requires { well_numbered number count ≡ true }
    ensures { through sent result ≡ laid_out (Sent.messages number) (unpacked count rest.now) }
{
    let messages = Messages::new(number, count, rest).ok_or(Refusal::PacketLayout)?;
    Ok(Packet::Data(messages))
}
