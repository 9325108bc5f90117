// The theorems of the plain follower, each the contract of a function that does nothing.
ghost use Rattle.following.specs.Law.{Law, RefusalsChangeNothing, CountsAddUp, WantedBounded, StopsForget, NoNeedlessGap, LampIsShown, HighestHeard, PacketsAreTaken, WantedIsTaken, DropsOnlyWhenFull, RepairsAreHonest, FetchesWhatIsMissing};

/// While the lamp is green the book is the venue's own; a red is never needless; a gap can be mended.
pub fn law_stands()
    ensures { Law }
{}

/// A refused call changes nothing.
pub fn refusals_change_nothing()
    ensures { RefusalsChangeNothing }
{}

/// Taken, repeated, dropped and unread add up to the messages of a packet.
pub fn counts_add_up()
    ensures { CountsAddUp }
{}

/// The wanted number is never more than one above the highest heard.
pub fn wanted_bounded()
    ensures { WantedBounded }
{}

/// A stop makes the follower dark and keeps nothing, so that a start after it begins anew.
pub fn stops_forget()
    ensures { StopsForget }
{}

/// Where nothing was dropped, a gap never wants a number that an accepted packet carried.
pub fn no_needless_gap()
    ensures { NoNeedlessGap }
{}

/// The lamp is shown as it is, and to show it changes nothing.
pub fn lamp_is_shown()
    ensures { LampIsShown }
{}

/// The highest number heard is what the calls accepted since the last start tell.
pub fn highest_heard()
    ensures { HighestHeard }
{}

/// A started follower accepts every packet that can be read, unless it tells another session than the known one.
pub fn packets_are_taken()
    ensures { PacketsAreTaken }
{}

/// A started follower takes the message that its book wants from every packet that has it.
pub fn wanted_is_taken()
    ensures { WantedIsTaken }
{}

/// A packet has a message dropped only where no slot is free after it.
pub fn drops_only_when_full()
    ensures { DropsOnlyWhenFull }
{}

/// What a repair answers is so of the state after it.
pub fn repairs_are_honest()
    ensures { RepairsAreHonest }
{}

/// A repair that does not end red fetched exactly as many messages as are missing no more.
pub fn fetches_what_is_missing()
    ensures { FetchesWhatIsMissing }
{}
