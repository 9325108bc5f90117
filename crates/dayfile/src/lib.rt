// A source of missing messages over the bytes of a day file.
#![tactic(auto)]

mod block;
mod cursor;
mod file;
mod look;

pub use block::block_check;
pub use file::DayFile;
