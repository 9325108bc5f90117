// A day file.
ghost use Rattle.std.specs.Prelude.{◌≡◌, ◌≤◌};
ghost use Rattle.std.proofs.Props.{props};
ghost use Rattle.dayfile.specs.Looks.{Leads};

use crate::block::{BLOCK, GoodBlock};
use crate::cursor::Cursor;
use crate::look;
use codes::Refusal;
use source::{MessageBuffer, Source};
use wire::Session;

/// The messages of a day file, read where they lie.
#[derive(Drop)]
pub struct DayFile<'a> {
    bytes: &'a [u8],
    session: Session,
    cursor: Cursor<'a>,
    ghost leads: { Leads bytes.now session cursor } by { Prim.hlevel props },
}

impl<'a> DayFile<'a> {
    ghost use Rattle.wire.specs.Answers.{through};
    ghost use Rattle.source.specs.Meanings.{Sized};
    ghost use Rattle.dayfile.specs.Blocks.{blocks as blocksOf, first_session, day_file};
    ghost use Rattle.dayfile.specs.Looks.{message_in};
    ghost use Rattle.dayfile.specs.Cursors.{meaning_of};

    /// A day file that has a good block.
    #[tactic(auto, unfolding(crate::specs::Blocks::day_file))]
    pub fn open(bytes: &'a [u8]) -> Result<DayFile<'a>, Refusal>
        ensures { through meaning_of result ≡ day_file bytes.now }
    {
        let session = DayFile::first_session(bytes).ok_or(Refusal::NoGoodBlock)?;
        Ok(DayFile {
            bytes,
            session,
            cursor: Cursor::front(bytes),
        })
    }

    // The session of the first good block. A shorter tail is not read.
    fn first_session(bytes: &[u8]) -> Option<Session>
        ensures { result ≡ first_session (blocksOf bytes.now) }
    {
        bytes
            .chunks_exact(BLOCK)
            .find_map(|block| GoodBlock::read(block).map(|good| good.session))
    }

    // The cursor if it is good for the number, else the front.
    fn toward(&self, number: u32) -> Cursor<'a>
        ensures within { (result.low ≤ number) × (number ≤ result.high) }
        ensures leads { Leads self.now.bytes.now self.now.session result }
    {
        if (self.cursor.low..=self.cursor.high).contains(&number) {
            self.cursor
        } else {
            Cursor::front(self.bytes)
        }
    }

    // Looks for a number: its message, if it is held, and the cursor at the block that holds it or, where none does, at
    // the end. A block that is passed and begins above the number bounds what the cursor is good for.
    fn seek(&self, number: u32) -> (Option<&'a [u8]>, Cursor<'a>)
        ensures value { message_in result.0 ≡ (meaning_of self.now).held number }
        ensures sized { Sized (message_in result.0) }
        ensures leads { Leads self.now.bytes.now self.now.session result.1 }
    {
        let mut cursor = self.toward(number);
        cursor.low = number;
        while let Some((block, behind)) = cursor.rest.split_at_checked(BLOCK) {
            match look::in_block(GoodBlock::read(block), self.session, number) {
                Ok(message) => return (Some(message), cursor),
                Err(last) => cursor.high = cursor.high.min(last),
            }
            cursor.rest = behind;
        }
        (None, cursor)
    }
}

impl<'a> Source for DayFile<'a> {
    ghost use Rattle.dayfile.specs.Cursors.{meaning_of};

    ghost meaning = { meaning_of };

    fn session(&self) -> Session {
        self.session
    }

    fn fetch(&mut self, number: u32, out: &mut MessageBuffer) -> Option<usize> {
        let (message, cursor) = self.seek(number);
        self.cursor = cursor;
        let message = message?;
        out[..message.len()].copy_from_slice(message);
        Some(message.len())
    }
}
