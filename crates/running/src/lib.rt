//! The book and the messages that are held for it: each message of the feed in its turn.
#![tactic(auto)]

mod moves;
mod rows;
mod runner;

pub use moves::{Reached, Repair, Stop, Treated, Wanted};
pub use rows::{ByNumber, HeldRow};
pub use runner::Runner;
