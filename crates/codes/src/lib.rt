// The enums that answers are made of, each with the number or the letter of its cases. The letters are converted and
// printed by one `impl` for each enum, since each casts its own.
#![tactic(auto)]

mod cause;
mod event;
mod lamp;
mod refusal;
mod short;
mod side;
mod status;
mod trading;
mod unlisted;

pub use cause::Cause;
pub use event::EventCode;
pub use lamp::Lamp;
pub use refusal::{Refusal, RefusalNumber};
pub use short::ShortSell;
pub use side::Side;
pub use status::Status;
pub use trading::Trading;
pub use unlisted::Unlisted;
