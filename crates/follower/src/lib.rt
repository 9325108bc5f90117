//! The follower: every call on it, with the promise in its contract.
#![tactic(auto)]

mod call;
mod follower;
mod state;

pub use call::{Answer, Call, Question};
pub use follower::Follower;
