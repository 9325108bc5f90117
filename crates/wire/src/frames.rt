// Messages behind their lengths.
ghost use Rattle.std.specs.Prelude.{◌≡◌, ◌≤◌, length, IfSome};
ghost use Rattle.std.specs.Option.{option_map};
ghost use Rattle.wire.specs.Frames.{split_message, skip_messages, parts, rest};

use crate::bytes::front_length;

// The fewest and the most bytes of a message.
pub const LEAST_MESSAGE: usize = 5;

pub const MOST_MESSAGE: usize = 80;

// The message at the front, and what is behind it, where it is whole.
pub(crate) fn split_message(bytes: &[u8]) -> Option<(&[u8], &[u8])>
    ensures parts { option_map parts result ≡ split_message bytes.now }
    ensures least { IfSome result (λ p. 5 ≤ length p.0.now) }
    ensures most { IfSome result (λ p. length p.0.now ≤ 80) }
{
    let length = front_length(bytes, LEAST_MESSAGE, MOST_MESSAGE)?;
    let end = 2 + length;
    Some((&bytes[2..end], &bytes[end..]))
}

// What is behind so many messages, where they are whole.
pub fn skip_messages(bytes: &[u8], count: u16) -> Option<&[u8]>
    ensures rest { option_map rest result ≡ skip_messages count bytes.now }
    ensures within { IfSome result (λ r. length r.now ≤ length bytes.now) }
{
    // each step goes on from what the last one left, whatever its number
    (0..count).try_fold(bytes, |rest, _| Some(split_message(rest)?.1))
}
