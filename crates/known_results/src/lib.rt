// The known results of the rules, each theorem the contract of a function that does nothing.
#![tactic(auto)]

ghost use Rattle.known_results.specs.Table.{KnownResults};
ghost use Rattle.known_results.specs.Joins.{GapAmongHeld};

/// Every row of the table of known results stands.
pub fn known_results_stand()
    ensures { KnownResults }
{}

/// The table's late join gives its gap with any messages held, if the one that runs stops nothing.
pub fn gap_among_held()
    ensures { GapAmongHeld }
{}
