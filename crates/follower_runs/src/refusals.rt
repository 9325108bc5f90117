// Every refusal and, where two could apply, the one with the smaller number.
use crate::walk::Said::{Done, Taken, Trading};
use crate::walk::{Step, Turn, walk};
use codes::Trading::Open;
use codes::{Cause, Lamp, Refusal, Side};
use dayfile::DayFile;
use std::test::Fail;

const SOURCE: &[u8] = b"\0\x20A2010090300         1,         0\0\x06S....T";

const OTHER_SOURCE: &[u8] = b"\0\x20A2010090301         1,         0\0\x06S....T";

// Number 2 comes next.
const HEARTBEAT: &[u8] = b"\0\0\0\x02\0\x002010090300";

#[test]
fn while_dark(rt: HostRuntime) -> Result<(), Fail> {
    walk(
        &rt,
        &[],
        &[
            (Step::Stop, Err(Refusal::Dark), Lamp::Dark),
            // before 4
            (Step::Packet(b""), Err(Refusal::Dark), Lamp::Dark),
            // before 8
            (Step::Snapshot(b""), Err(Refusal::Dark), Lamp::Dark),
            (Step::Repair(SOURCE, 1), Err(Refusal::Dark), Lamp::Dark),
            // before 14
            (Step::Event, Err(Refusal::Dark), Lamp::Dark),
        ],
    )
}

#[test]
fn while_red(rt: HostRuntime) -> Result<(), Fail> {
    let red = Lamp::Red {
        number: 1,
        cause: Cause::Length,
    };
    walk(
        &rt,
        &[
            (Step::StartAtOne, Ok(Done), Lamp::Waiting),
            (
                Step::Packet(b"\0\0\0\x01\0\x01\0\x06....T."),
                Ok(Taken(1)),
                red,
            ),
        ],
        &[
            // before 3
            (Step::StartAtOne, Err(Refusal::NotDark), red),
            (Step::StartBySnapshot, Err(Refusal::NotDark), red),
            // before 4, 7 and 14
            (Step::Packet(b""), Err(Refusal::Red), red),
            (Step::Snapshot(b""), Err(Refusal::Red), red),
            (Step::Repair(SOURCE, 1), Err(Refusal::Red), red),
            (Step::Event, Err(Refusal::Red), red),
        ],
    )
}

const GAP: Lamp = Lamp::Gap {
    wanted: 1,
    heard: 1,
};

const IN_A_GAP: [Turn<'_>; 6] = [
    // before 5
    (Step::Packet(b"\0\0\0\0\0"), Err(Refusal::ShortPacket), GAP),
    // before 6
    (
        Step::Packet(b"\0\0\0\0\0\0"),
        Err(Refusal::PacketNumbers),
        GAP,
    ),
    // before 10
    (
        Step::Packet(b"\0\0\0\x02\0\x0020100903011"),
        Err(Refusal::PacketLayout),
        GAP,
    ),
    (
        Step::Packet(b"\0\0\0\x02\0\x002010090301"),
        Err(Refusal::OtherSession),
        GAP,
    ),
    // before 10
    (
        Step::Snapshot(b"\0\x20A2010090301         1,         0"),
        Err(Refusal::HasBook),
        GAP,
    ),
    (
        Step::Repair(OTHER_SOURCE, 1),
        Err(Refusal::OtherSession),
        GAP,
    ),
];

#[test]
fn in_a_gap(rt: HostRuntime) -> Result<(), Fail> {
    walk(
        &rt,
        &[
            (Step::StartAtOne, Ok(Done), Lamp::Waiting),
            (Step::Packet(HEARTBEAT), Ok(Taken(0)), GAP),
        ],
        &IN_A_GAP,
    )
}

#[test]
fn with_a_book(rt: HostRuntime) -> Result<(), Fail> {
    walk(
        &rt,
        &[(Step::StartAtOne, Ok(Done), Lamp::Waiting)],
        &[
            (Step::StartBySnapshot, Err(Refusal::NotDark), Lamp::Waiting),
            // before 8
            (Step::Snapshot(b""), Err(Refusal::HasBook), Lamp::Waiting),
            (
                Step::Repair(SOURCE, 1),
                Err(Refusal::Waiting),
                Lamp::Waiting,
            ),
            // before 15
            (
                Step::States(b"2531  "),
                Err(Refusal::NotGreen(Lamp::Waiting)),
                Lamp::Waiting,
            ),
        ],
    )
}

// The session is known by a heartbeat.
const WITHOUT_A_BOOK: [Turn<'_>; 7] = [
    // of mode 0: before 10
    (
        Step::Snapshot(b"\0\x20A2010090301         0,         0"),
        Err(Refusal::NotOpened),
        Lamp::Waiting,
    ),
    // before 11
    (
        Step::Snapshot(b"\0\x20A2010090301         1,         0"),
        Err(Refusal::OtherSession),
        Lamp::Waiting,
    ),
    // before 12
    (
        Step::Snapshot(b"\0\x20A2010090301         1,         0\0\x07S....T."),
        Err(Refusal::OtherSession),
        Lamp::Waiting,
    ),
    (
        Step::Snapshot(b"\0\x20A2010090300         1,         0"),
        Err(Refusal::SnapshotCut),
        Lamp::Waiting,
    ),
    // a cause, and then cut
    (
        Step::Snapshot(b"\0\x20A2010090300         1,         0\0\x07S....T.\0"),
        Err(Refusal::SnapshotStopped(Cause::Length)),
        Lamp::Waiting,
    ),
    // before 13
    (
        Step::Repair(OTHER_SOURCE, 1),
        Err(Refusal::OtherSession),
        Lamp::Waiting,
    ),
    (
        Step::Repair(SOURCE, 1),
        Err(Refusal::Waiting),
        Lamp::Waiting,
    ),
];

#[test]
fn without_a_book(rt: HostRuntime) -> Result<(), Fail> {
    walk(
        &rt,
        &[
            (Step::StartBySnapshot, Ok(Done), Lamp::Waiting),
            (Step::Packet(HEARTBEAT), Ok(Taken(0)), Lamp::Waiting),
        ],
        &WITHOUT_A_BOOK,
    )
}

#[test]
fn questions(rt: HostRuntime) -> Result<(), Fail> {
    // one stock, with two orders to sell
    let green = Lamp::Green { wanted: 4 };
    walk(
        &rt,
        &[
            (Step::StartAtOne, Ok(Done), Lamp::Waiting),
            (
                Step::Packet(
                    b"\0\0\0\x01\0\x03\0\x0d....H2531  TN\0\x1d....A\0\0\0\x16S\0\0\x03\xe82531  \0\0\0\x02T\x0b\xe4\0Y\0\x1d....A\0\0\0\x17S\0\0\x03\xe82531  \0\0\0\x02T\x0b\xe4\0Y",
                ),
                Ok(Taken(3)),
                green,
            ),
        ],
        &[
            (Step::States(b"2531  "), Ok(Trading(Some(Open))), green),
            (Step::States(b"2914  "), Err(Refusal::NoStock), green),
            // no symbol
            (Step::States(b"2531"), Err(Refusal::NoStock), green),
            // before 16
            (
                Step::Orders(b"2914  ", Side::Sell),
                Err(Refusal::NoStock),
                green,
            ),
            (
                Step::Orders(b"2531  ", Side::Sell),
                Err(Refusal::TooFewRows(2)),
                green,
            ),
        ],
    )
}

#[test]
fn sources(rt: HostRuntime) -> Result<(), Fail> {
    walk(
        &rt,
        &[],
        &[(Step::Repair(b"", 1), Err(Refusal::NotOpened), Lamp::Dark)],
    )?;
    assert!(rt; DayFile::open(&[0; 512]).err() == Some(Refusal::NoGoodBlock));
    Ok(())
}
