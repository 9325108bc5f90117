// The walk over the messages of a packet.
ghost use Rattle.std.specs.Prelude.{◌≡◌, ◌+◌, ◌≤◌, length, true, is_some};
ghost use Rattle.std.specs.Option.{option_map};
ghost use Rattle.wire.specs.Numbers.{most32};
ghost use Rattle.wire.specs.Packets.{messages, well_numbered, unpacked, left_in, Walked};
ghost use Rattle.std.specs.Iterator.{at_most};

use super::{Messages, Numbered};
use crate::frames::{skip_messages, split_message};

impl<'a> Messages<'a> {
    // So many messages from that number on, where they fill the bytes.
    #[tactic(auto, using(std::proofs::lemmas::Bool::Decides::nat_tests, crate::proofs::Steps::all_walked))]
    pub(crate) fn new(number: u32, left: u16, bytes: &'a [u8]) -> Option<Messages<'a>>
        requires { well_numbered number left ≡ true }
        ensures { option_map (λ m. messages m.number (left_in m)) result ≡ option_map (messages number) (unpacked left bytes.now) }
    {
        if !filled(bytes, left) {
            return None;
        }
        Some(Messages {
            bytes,
            number,
            left,
        })
    }

    // The number of the last of them, or the one before the first where none is left.
    #[tactic(auto, using(crate::proofs::Steps::walked_length))]
    pub fn last_number(&self) -> u32
        ensures last { result + 1 ≡ self.now.number + length (left_in self.now) }
        ensures within { result ≤ most32 }
    {
        self.number - 1 + u32::from(self.left)
    }
}

// Whether so many messages fill the bytes.
fn filled(bytes: &[u8], count: u16) -> bool
    ensures { result ≡ is_some (unpacked count bytes.now) }
{
    skip_messages(bytes, count).is_some_and(|rest| rest.is_empty())
}

impl<'a> Iterator for Messages<'a> {
    type Item = Numbered<'a>;

    ghost can_next = { λ _. Unit {0} };

    ghost next_gives = { λ s r t. Walked s r t };

    ghost remaining = { λ s. at_most s.left };

    #[tactic(auto, using(crate::proofs::Steps::walked_none))]
    fn next(&mut self) -> Option<Numbered<'a>> {
        let left = self.left.checked_sub(1)?;
        let number = self.number;
        let (bytes, rest) = split_message(self.bytes)?;
        *self = Messages {
            bytes: rest,
            number: number + 1,
            left,
        };
        Some(Numbered { number, bytes })
    }
}
