// The follower, and what holds of it between any two calls.
ghost use Rattle.std.specs.Prelude.{◌≡◌, List};
ghost use Rattle.running.specs.Runners.{room_of, book_in, held_in};
ghost use Rattle.follower.specs.Modelled.{modelled, Reachable};

use crate::state::State;
use running::Runner;

mod calls;
mod questions;
mod steps;

/// Follows one venue's displayed orders through one session, over lent slots.
#[derive(Drop)]
pub struct Follower<'a, 'b> {
    runner: Runner<'a, 'b>,
    state: State,
    // some history of calls on a new follower led here
    ghost reached: { ∥ Reachable (room_of runner) (modelled state (book_in runner) (held_in runner)) ∥₁ },
}
