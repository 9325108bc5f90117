// A look for a number in one block.
ghost use Rattle.std.specs.Option.{option_map};
ghost use Rattle.wire.specs.Packets.{left_in};
ghost use Rattle.source.specs.Meanings.{numbered_from};
ghost use Rattle.dayfile.specs.Blocks.{held_in};
ghost use Rattle.dayfile.specs.Looks.{seen, Looked};

use crate::block::GoodBlock;
use source::same_session;
use wire::{Messages, Session};

// The message of the number, or up to which number nothing is held from that one on. A block that is not good, or of
// another session, holds nothing.
// An `Err` is no fault: the look goes on in the next block.
pub(crate) fn in_block<'a>(
    block: Option<GoodBlock<'a>>,
    session: Session,
    number: u32,
) -> Result<&'a [u8], u32>
    ensures { Looked (held_in session (option_map seen block.entry)) number result }
{
    let good = block
        .filter(|good| same_session(session, good.session))
        .ok_or(u32::MAX)?;
    in_messages(good.messages, number)
}

// The messages ascend by one, so that no later one has a number that was passed.
fn in_messages(messages: Messages<'_>, number: u32) -> Result<&[u8], u32>
    ensures { Looked (numbered_from messages.entry.number (left_in messages.entry)) number result }
{
    // Behind `find` the number of what it found would have to be compared a second time.
    for m in messages {
        if m.number == number {
            return Ok(m.bytes);
        }
        if m.number > number {
            return Err(m.number - 1);
        }
    }
    Err(u32::MAX)
}
