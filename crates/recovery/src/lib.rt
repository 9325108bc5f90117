// A recovery session as a source of missing messages.
#![tactic(auto)]

mod place;
mod recovery;

pub use recovery::Recovery;
