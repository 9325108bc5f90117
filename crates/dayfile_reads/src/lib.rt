//! Day files of a few blocks, good and damaged, and what is fetched from them.
#![tactic(auto)]

mod blocks;
mod files;
mod making;
