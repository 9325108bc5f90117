// The venue's samples of full length, and the edges of its layouts, read to their fields.
#![tactic(auto)]

mod messages;
mod packets;
mod sessions;
