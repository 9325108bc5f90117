// A capture file: packets, each behind its length in 2 bytes.
ghost use Rattle.std.specs.Prelude.{◌≡◌, ◌+◌, ◌≤◌, length, IfSome};
ghost use Rattle.std.specs.Iterator.{at_most};
ghost use Rattle.std.specs.Option.{option_map};
ghost use Rattle.wire.specs.Frames.{parts};
ghost use Rattle.replay_follower.specs.Captures.{first_packet};

use codes::Refusal;
use follower::Answer;
use std::fmt;
use wire::front_length;

// The whole packets at the front of a file. An iterator, which like those of std is not `Copy`.
#[derive(Drop)]
pub(crate) struct Packets<'a>(pub(crate) &'a [u8]);

// What became of all packets of a file, and of their messages: counts in 64 bits, since a file has many packets.
#[derive(Clone, Copy, Default)]
pub(crate) struct Sums {
    packets: u64,
    taken: u64,
    repeated: u64,
    dropped: u64,
    unread: u64,
    refused: u64,
}

impl<'a> Iterator for Packets<'a> {
    type Item = &'a [u8];

    ghost remaining = { λ s. at_most (length s.0.now) };

    fn next(&mut self) -> Option<&'a [u8]> {
        let (packet, behind) = first(self.0)?;
        self.0 = behind;
        Some(packet)
    }
}

// The first packet, and what stands behind it; none where it is not whole.
fn first(bytes: &[u8]) -> Option<(&[u8], &[u8])>
    ensures parts { option_map parts result ≡ first_packet bytes.now }
    ensures shorter { IfSome result (λ p. length p.1.now + 2 ≤ length bytes.now) }
{
    let length = front_length(bytes, 0, 65_535)?;
    Some((&bytes[2..2 + length], &bytes[2 + length..]))
}

impl Sums {
    // One packet more, with what the follower answered to it.
    pub(crate) fn add(&mut self, answer: Result<Answer, Refusal>) {
        self.packets = self.packets.saturating_add(1);
        let Ok(Answer::Counted(counts)) = answer else {
            self.refused = self.refused.saturating_add(1);
            return;
        };
        self.taken = self.taken.saturating_add(u64::from(counts.taken));
        self.repeated = self.repeated.saturating_add(u64::from(counts.repeated));
        self.dropped = self.dropped.saturating_add(u64::from(counts.dropped));
        self.unread = self.unread.saturating_add(u64::from(counts.unread));
    }
}

impl fmt::Display for Sums {
    fn fmt<W: fmt::Write>(&self, f: &mut fmt::Formatter<W>) -> fmt::Result {
        let Sums {
            packets,
            taken,
            repeated,
            dropped,
            unread,
            refused,
        } = *self;
        write!(
            f,
            "packets {packets} taken {taken} repeated {repeated} dropped {dropped} unread {unread} refused {refused}"
        )
    }
}
