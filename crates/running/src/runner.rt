// A book and the messages that are held for it.
use crate::rows::{ByNumber, HeldRow};
use book::Book;
use table::Table;

mod packets;
mod questions;
mod repairs;
mod runs;
mod snapshots;

/// A book, and the messages that are held until it wants them.
// Each call says that it keeps the slots: no type can tell what a call leaves of the value before it.
#[derive(Drop)]
pub struct Runner<'a, 'b> {
    book: &'a mut Book<'b>,
    held: Table<'a, HeldRow, ByNumber>,
}
