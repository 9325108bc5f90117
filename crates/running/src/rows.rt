// The rows of held messages.
ghost use Rattle.std.specs.Prelude.{◌≡◌, ◌≤◌, length};
ghost use Rattle.wire.specs.Numbers.{most32};

use std::cmp::Ordering;
use table::Row;
use wire::Numbered;

/// A held message: its number, and its bytes at the front of the 80.
// A slot is lent memory of one size, so that the length stands beside the bytes.
#[derive(Clone, Copy)]
pub struct HeldRow {
    number: u32,
    length: u8,
    bytes: [u8; 80],
    pub ghost numbered: { number ≤ most32 },
    pub ghost sized: { length ≤ 80 },
}

/// Held messages in the order of their numbers.
#[derive(Clone, Copy)]
pub struct ByNumber;

impl HeldRow {
    ghost use Rattle.running.specs.Rows.{row_number, message_in};

    /// A slot that holds no message, to be lent to a follower: a constant, so that an array of slots can repeat it.
    pub const EMPTY: HeldRow = HeldRow {
        number: 0,
        length: 0,
        bytes: [0; 80],
    };

    // The row of a message.
    pub(crate) fn new(message: Numbered<'_>) -> HeldRow
        ensures number { row_number result ≡ message.entry.number }
        ensures message { message_in result ≡ message.entry.bytes.now }
    {
        let length = message.bytes.len();
        // A message is up to 80 bytes long, so that none converts to the array.
        let mut bytes = [0; 80];
        bytes[..length].copy_from_slice(message.bytes);
        HeldRow {
            number: message.number,
            length: length as u8,
            bytes,
        }
    }

    pub(crate) fn number(&self) -> u32
        ensures { result ≡ row_number self.now }
    {
        self.number
    }

    pub(crate) fn message(&self) -> &[u8]
        ensures { result.now ≡ message_in self.now }
    {
        &self.bytes[..usize::from(self.length)]
    }
}

impl Row<ByNumber> for HeldRow {
    ghost use Rattle.book.specs.Keys.{by_number};
    ghost use Rattle.running.specs.Rows.{row_number};
    ghost use Rattle.std.specs.Cmp.{nat_cmp_total};
    ghost use Rattle.table.proofs.Laws.{total_lawful};

    type Key = u32;

    ghost key = { row_number };

    ghost order = { by_number };

    ghost lawful = { total_lawful nat_cmp_total };

    fn key_of(&self) -> u32 {
        self.number()
    }

    fn compare(a: &u32, b: &u32) -> Ordering {
        a.cmp(b)
    }
}
