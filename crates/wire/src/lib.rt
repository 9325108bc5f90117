// The venue's bytes: integers, symbols and session names, messages and packets.
#![tactic(auto)]

mod bytes;
mod frames;
mod message;
mod messages;
mod name;
mod order;
mod packet;

pub use bytes::{MOST, field, front_length};
pub use frames::{LEAST_MESSAGE, MOST_MESSAGE, skip_messages};
pub use message::{Message, SnapshotMessage};
pub use messages::{Messages, Numbered};
pub use name::{Name, Session, SessionBytes, Symbol, SymbolBytes, same_name};
pub use order::{Order, OrderRow};
pub use packet::Packet;
