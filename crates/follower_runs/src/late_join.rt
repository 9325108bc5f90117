// A join in the middle of the day, with messages held below, at and above the End's number.
use crate::walk::Said::{Done, Next, Repaired, Taken};
use crate::walk::{Step, walk};
use codes::Lamp;
use following::Ending::{Budget, Green, NotHeld};
use std::test::Fail;

// Its End tells 3686.
const SNAPSHOT: &[u8] = b"\0\x20A2010090300         1,         0\0\x0aS....G\0\0\x0e\x66";

const SOURCE: &[u8] = b"\0\x20A2010090300      3687,         0\0\x06S....T";

// It lacks 3687.
const OTHER_SOURCE: &[u8] = b"\0\x20A2010090300      3688,         0\0\x06S....T";

#[test]
fn the_gap_is_mended(rt: HostRuntime) -> Result<(), Fail> {
    let gap = Lamp::Gap {
        wanted: 3687,
        heard: 3688,
    };
    walk(
        &rt,
        &[
            (Step::StartBySnapshot, Ok(Done), Lamp::Waiting),
            (
                Step::Packet(b"\0\0\x0e\x65\0\x02\0\x05....T\0\x05....T"),
                Ok(Taken(2)),
                Lamp::Waiting,
            ),
            (
                Step::Packet(b"\0\0\x0e\x68\0\x01\0\x05....T"),
                Ok(Taken(1)),
                Lamp::Waiting,
            ),
            (Step::Snapshot(SNAPSHOT), Ok(Next(3686)), gap),
        ],
        &[
            (Step::Repair(SOURCE, 0), Ok(Repaired(0, Budget)), gap),
            (Step::Repair(OTHER_SOURCE, 1), Ok(Repaired(0, NotHeld)), gap),
            (
                Step::Repair(SOURCE, 1),
                Ok(Repaired(1, Green)),
                Lamp::Green { wanted: 3689 },
            ),
        ],
    )
}
