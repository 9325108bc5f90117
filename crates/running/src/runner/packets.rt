// The messages of a packet, each in its turn.
ghost use Rattle.std.specs.Prelude.{◌≡◌, ◌≤◌, List, length};
ghost use Rattle.wire.specs.Numbers.{most32};
ghost use Rattle.wire.specs.Packets.{left_in};
ghost use Rattle.following.specs.States.{Held};
ghost use Rattle.following.specs.Follower.{Place, kept, treated, place_after, counts_of, count_one};
ghost use Rattle.running.specs.Runners.{held_in, book_in, room_of, place_in, fate_of, Leads, Countable};

use super::Runner;
use crate::moves::{Reached, Treated};
use crate::rows::HeldRow;
use following::Counts;
use table::NotAdded;
use wire::{Messages, Numbered};

impl<'a, 'b> Runner<'a, 'b> {
    // Holds a message that is not wanted yet, where a slot is free.
    fn keep(&mut self, message: Numbered<'_>) -> Treated
        ensures kept { (place : List Held → Place) → (fate_of result, place (held_in self.new)) ≡ kept (room_of self.old) place (held_in self.old) message.entry.number message.entry.bytes.now }
        ensures book { book_in self.new ≡ book_in self.old }
        ensures room { room_of self.new ≡ room_of self.old }
    {
        match self.held.add(HeldRow::new(message)) {
            Ok(()) => Treated::Taken,
            Err(NotAdded::Present) => Treated::Repeated,
            Err(NotAdded::Full) => Treated::Dropped,
        }
    }

    // One message of a packet.
    #[tactic(auto, unfolding(following::specs::Follower::treated))]
    fn treat(&mut self, reached: Reached, message: Numbered<'_>) -> (Treated, Reached)
        ensures treated { (fate_of result.0, place_in self.new result.1) ≡ treated (room_of self.old) (place_in self.old reached) message.entry.number message.entry.bytes.now }
        ensures room { room_of self.new ≡ room_of self.old }
    {
        match reached {
            Err(_) => (Treated::Unread, reached),
            Ok(None) => (self.keep(message), reached),
            Ok(Some(wanted)) => {
                if message.number < wanted.number {
                    (Treated::Repeated, reached)
                } else if message.number == wanted.number {
                    (
                        Treated::Taken,
                        self.run_wanted(wanted.number, message.bytes),
                    )
                } else {
                    (self.keep(message), reached)
                }
            }
        }
    }

    /// Each message of a packet in turn.
    pub fn treat_all(&mut self, reached: Reached, messages: Messages<'_>) -> (Counts, Reached)
        ensures counts { result.0 ≡ counts_of (room_of self.old) (place_in self.old reached) messages.entry.number (left_in messages.entry) }
        ensures led { Leads self.old self.new result.1 (place_after (room_of self.old) (place_in self.old reached) messages.entry.number (left_in messages.entry)) }
    {
        // the contract speaks of `reached` as it came
        let mut reached = reached;
        let mut counts = Counts::default();
        for message in messages {
            let (treated, next) = self.treat(reached, message);
            treated.count(&mut counts);
            reached = next;
        }
        (counts, reached)
    }
}

impl Treated {
    // One message more under its count.
    fn count(self, counts: &mut Counts)
        requires { Countable counts.old }
        ensures { counts.new ≡ count_one (fate_of self) counts.old }
    {
        match self {
            Treated::Taken => counts.taken += 1,
            Treated::Repeated => counts.repeated += 1,
            Treated::Dropped => counts.dropped += 1,
            Treated::Unread => counts.unread += 1,
        }
    }
}
