//! The venue's worked sequences on a book, with the rows and states after each step.
#![tactic(auto)]

#[cfg(test)]
mod lent;
mod sequences;
mod states;
