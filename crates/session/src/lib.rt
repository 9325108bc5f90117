// The bytes of a recovery or snapshot session: its messages, its opening, and number fields.
#![tactic(auto)]

mod carried;
mod field;
mod messages;

pub use carried::Carried;
pub use field::{NumberField, read_number, write_number};
pub use messages::{Opened, SessionMessage, SessionMessages};
