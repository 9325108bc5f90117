// The plain follower, and the promise over all its histories.
#![tactic(auto)]

mod answers;
mod laws;

pub use answers::{Counts, Ending};
pub use laws::{
    counts_add_up, drops_only_when_full, fetches_what_is_missing, highest_heard, lamp_is_shown,
    law_stands, no_needless_gap, packets_are_taken, refusals_change_nothing, repairs_are_honest,
    stops_forget, wanted_bounded, wanted_is_taken,
};
