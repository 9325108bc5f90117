// Worked histories of the plain follower, each the contract of a function that does nothing.
#![tactic(auto)]

ghost use Rattle.worked_histories.specs.Histories.{LateJoin, LossRepaired, RedNeeded, ForeignRefused, StopsBeforeGreen, RepeatsAndDrops};

/// A late join by snapshot, with held messages below, at and above its End's number, turns green, and the questions
/// answer.
pub fn late_join()
    ensures { LateJoin }
{}

/// A lost message is fetched from the second source of a pair.
pub fn loss_repaired()
    ensures { LossRepaired }
{}

/// A message without its stock turns the lamp red, and the whole run stops there too.
pub fn red_needed()
    ensures { RedNeeded }
{}

/// A foreign session is refused, and changes nothing.
pub fn foreign_refused()
    ensures { ForeignRefused }
{}

/// After two stops before green, a new start leads where it leads a new follower.
pub fn stops_before_green()
    ensures { StopsBeforeGreen }
{}

/// Messages that come twice are repeated, and one without a free slot is dropped and taken when it comes again.
pub fn repeats_and_drops()
    ensures { RepeatsAndDrops }
{}
