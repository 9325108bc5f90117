//! What the programs that read scripts share: words, requests, and what is printed of a line that fails.
#![tactic(auto)]

mod client;
mod fault;
pub mod hex;
#[cfg(test)]
mod tests;
pub mod words;

pub use client::{Client, request};
pub use fault::Fault;
