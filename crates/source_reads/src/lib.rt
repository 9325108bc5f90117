//! Recovery sessions and pairs of them, asked for numbers in turn.
#![tactic(auto)]

#[cfg(test)]
mod calls;
#[cfg(test)]
mod pairs;
#[cfg(test)]
mod sessions;
