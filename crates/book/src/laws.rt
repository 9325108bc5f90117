// What holds of every run.
ghost use Rattle.book.specs.Runs.{RunsSound, SnapshotsSound, SecondsIdle, OthersIdle};

/// The laws of whole runs, as theorems of the plain book that each call is equal to.
pub fn laws_stand()
    ensures runs { RunsSound }
    ensures snapshots { SnapshotsSound }
    ensures seconds { SecondsIdle }
    ensures others { OthersIdle }
{}
