// One block of a day file: a session, a packet padded with zeros, and a check.
ghost use Rattle.std.specs.Prelude.{◌≡◌, ◌+◌, ◌≤◌, length, IfSome, Some};
ghost use Rattle.std.specs.Option.{option_map};
ghost use Rattle.dayfile.specs.Blocks.{check_of, extent, zeros, good, padded_packet};
ghost use Rattle.dayfile.specs.Looks.{seen};

use wire::{Messages, Packet, Session, field, skip_messages};

// The bytes of a block.
pub(crate) const BLOCK: usize = 512;

// The check counts the bytes before it.
const COVERED: usize = 510;

const MODULUS: u32 = 65_521;

// A block that is laid out as it must be and whose check is right.
#[derive(Clone, Copy)]
pub(crate) struct GoodBlock<'a> {
    pub(crate) session: Session,
    pub(crate) messages: Messages<'a>,
}

/// The check of a block: the bytes before the check's own, each times its place counted from 1, modulo 65,521.
pub fn block_check(block: &[u8]) -> u16
    ensures { result ≡ check_of block.now }
{
    let covered = &block[..block.len().min(COVERED)];
    // Not as a chain with `map` and `sum`, where no term shows its place, which bounds it.
    let mut sum = 0;
    for (i, b) in covered.iter().enumerate() {
        sum += (i as u32 + 1) * u32::from(*b);
    }
    (sum % MODULUS) as u16
}

impl<'a> GoodBlock<'a> {
    // The block that the bytes are, where the check at their end is that of the bytes before it.
    #[tactic(auto, unfolding(crate::specs::Blocks::good))]
    pub(crate) fn read(block: &'a [u8]) -> Option<GoodBlock<'a>>
        requires { length block.now ≡ 512 }
        ensures { option_map seen result ≡ good block.now }
    {
        let check = u16::from_be_bytes(field(block, COVERED)?);
        if block_check(block) != check {
            return None;
        }
        let session = Session::read(&block[..10])?;
        padded_packet(session, &block[10..COVERED])
    }
}

// A packet with messages, behind which only zeros stand.
fn padded_packet(session: Session, padded: &[u8]) -> Option<GoodBlock<'_>>
    requires { 6 ≤ length padded.now }
    ensures { option_map seen result ≡ padded_packet (Some session) padded.now }
{
    let count = u16::from_be_bytes(field(padded, 4)?);
    let end = 6 + extent(&padded[6..], count)?;
    if !zeros(&padded[end..]) {
        return None;
    }
    let Packet::Data(messages) = Packet::read(&padded[..end]).ok()? else {
        return None;
    };
    Some(GoodBlock { session, messages })
}

// How many bytes so many messages take at the front.
#[tactic(auto, using(crate::proofs::Layouts::extent_some, crate::proofs::Layouts::extent_none))]
fn extent(bytes: &[u8], count: u16) -> Option<usize>
    ensures value { result ≡ extent count bytes.now }
    ensures within { IfSome result (λ n. n ≤ length bytes.now) }
{
    let rest = skip_messages(bytes, count)?;
    Some(bytes.len() - rest.len())
}

fn zeros(bytes: &[u8]) -> bool
    ensures { result ≡ zeros bytes.now }
{
    bytes.iter().all(|b| *b == 0)
}
