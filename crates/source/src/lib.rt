// Sources of missing messages, and the pair of any two.
#![tactic(auto)]

mod pair;
mod source;

pub use pair::{Pair, same_session};
pub use source::{MessageBuffer, Source};
