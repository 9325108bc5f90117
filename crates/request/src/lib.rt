// What a client of the recovery and snapshot services sends, and the ticket of an open session.
#![tactic(auto)]

mod login;
mod request;
mod ticket;

pub use login::{Login, LoginBytes};
pub use request::Request;
pub use ticket::{LetterBytes, Ticket};
