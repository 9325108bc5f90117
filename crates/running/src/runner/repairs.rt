// Missing messages, fetched from a source.
ghost use Rattle.std.specs.Prelude.{◌≡◌, ◌≤◌};
ghost use Rattle.wire.specs.Numbers.{most32};
ghost use Rattle.following.specs.Follower.{mended};
ghost use Rattle.running.specs.Runners.{room_of, place_in, mended_in, Missing, Fetched};

use super::Runner;
use crate::moves::{Reached, Repair, Wanted};
use following::Ending;
use source::{MessageBuffer, Source};

impl<'a, 'b> Runner<'a, 'b> {
    /// Fetches the wanted message and runs it, again and again, until the book has all that was heard, a message stops it,
    /// so many as the budget were fetched, or the source lacks the one wanted.
    pub fn mend<S: Source>(
        &mut self,
        reached: Reached,
        source: &mut S,
        highest: u32,
        budget: u32,
    ) -> Repair
        requires heard { highest ≤ most32 }
        ensures mended { mended_in self.new result ≡ mended (room_of self.old) (S.meaning source.old).held highest budget (place_in self.old reached) }
        ensures room { room_of self.new ≡ room_of self.old }
        ensures meaning { S.meaning source.new ≡ S.meaning source.old }
    {
        // the contract speaks of `reached` as it came
        let mut reached = reached;
        // One buffer for all turns.
        let mut out = [0; 80];
        // The turns are counted, since a repair tells how many messages it fetched.
        for fetched in 0..budget {
            match self.fetch(reached, source, highest, &mut out) {
                Ok(next) => reached = next,
                Err(ending) => {
                    return Repair {
                        reached,
                        fetched,
                        ending,
                    };
                }
            }
        }
        Repair {
            reached,
            fetched: budget,
            ending: missing(reached, highest).err().unwrap_or(Ending::Budget),
        }
    }

    // Fetches the message that is missing and runs it, or tells how the repair ends.
    fn fetch<S: Source>(
        &mut self,
        reached: Reached,
        source: &mut S,
        highest: u32,
        out: &mut MessageBuffer,
    ) -> Result<Reached, Ending>
        requires heard { highest ≤ most32 }
        ensures fetched { Fetched (room_of self.old) (S.meaning source.old).held highest (place_in self.old reached) reached self.new result }
        ensures room { room_of self.new ≡ room_of self.old }
        ensures meaning { S.meaning source.new ≡ S.meaning source.old }
    {
        let wanted = missing(reached, highest)?;
        let length = source.fetch(wanted.number, out).ok_or(Ending::NotHeld)?;
        Ok(self.run_wanted(wanted.number, &out[..length]))
    }
}

// The wanted number, where it was heard, or how a repair ends.
// `reached` changes at each turn and `highest` at none, so that a struct of both would be made anew each time.
#[tactic(auto, unfolding(following::specs::Follower::mended))]
fn missing(reached: Reached, highest: u32) -> Result<Wanted, Ending>
    ensures { Missing highest reached result }
{
    match reached {
        Ok(Some(wanted)) if wanted.number <= highest => Ok(wanted),
        Ok(Some(_)) => Err(Ending::Green),
        Ok(None) => Err(Ending::NotHeld),
        Err(_) => Err(Ending::Red),
    }
}
