// The causes that stop the book, through packets, snapshots and a repair.
use crate::walk::Said::{Done, Repaired, Taken};
use crate::walk::{Step, walk};
use codes::{Cause, Lamp, Refusal};
use following::Ending;
use std::process::Abort;
use std::test::Fail;

// A stock with an order to sell, of reference 22 and 1000 shares, and then a packet of message 3.
fn stopped(rt: &impl Abort, packet: &[u8], cause: Cause) -> Result<(), Fail> {
    walk(
        rt,
        &[],
        &[
            (Step::StartAtOne, Ok(Done), Lamp::Waiting),
            (
                Step::Packet(
                    b"\0\0\0\x01\0\x02\0\x0d....H2531  TN\0\x1d....A\0\0\0\x16S\0\0\x03\xe82531  \0\0\0\x02T\x0b\xe4\0Y",
                ),
                Ok(Taken(2)),
                Lamp::Green { wanted: 3 },
            ),
            (
                Step::Packet(packet),
                Ok(Taken(1)),
                Lamp::Red { number: 3, cause },
            ),
        ],
    )
}

// Packets of message 3, and the cause that each stops the book with.
const PACKETS: [(&[u8], Cause); 10] = [
    // too long, also where a field is not as listed
    (b"\0\0\0\x03\0\x01\0\x06....T.", Cause::Length),
    (b"\0\0\0\x03\0\x01\0\x07....SX.", Cause::Length),
    // no event, and no side, also where the reference is a live one
    (b"\0\0\0\x03\0\x01\0\x06....SX", Cause::Field),
    (
        b"\0\0\0\x03\0\x01\0\x1d....A\0\0\0\x16Q\0\0\x03\xe82531  \0\0\0\x02T\x0b\xe4\0Y",
        Cause::Field,
    ),
    // a live reference, also where there is no stock
    (
        b"\0\0\0\x03\0\x01\0\x1d....A\0\0\0\x16S\0\0\x03\xe82531  \0\0\0\x02T\x0b\xe4\0Y",
        Cause::LiveReference,
    ),
    (
        b"\0\0\0\x03\0\x01\0\x1d....A\0\0\0\x16S\0\0\x03\xe82914  \0\0\0\x02T\x0b\xe4\0Y",
        Cause::LiveReference,
    ),
    (
        b"\0\0\0\x03\0\x01\0\x1d....A\0\0\0\x17S\0\0\x03\xe82914  \0\0\0\x02T\x0b\xe4\0Y",
        Cause::NoStock,
    ),
    (
        b"\0\0\0\x03\0\x01\0\x16....E\0\0\0\x17\0\0\x03\xe8.........",
        Cause::NoOrder,
    ),
    (
        b"\0\0\0\x03\0\x01\0\x0d....X\0\0\0\x16\0\0\x03\xe9",
        Cause::TooManyShares,
    ),
    // a second stock
    (b"\0\0\0\x03\0\x01\0\x0d....H2914  TN", Cause::TableFull),
];

#[test]
fn packets(rt: HostRuntime) -> Result<(), Fail> {
    for (packet, cause) in PACKETS {
        stopped(&rt, packet, cause)?;
    }
    Ok(())
}

// Snapshots, and the cause that each is refused for.
const SNAPSHOTS: [(&[u8], Cause); 9] = [
    (
        b"\0\x20A2010090300         1,         0\0\x07S....T.",
        Cause::Length,
    ),
    // an End of 0
    (
        b"\0\x20A2010090300         2,         0\0\x0aS....G\0\0\0\0",
        Cause::Field,
    ),
    (
        b"\0\x20A2010090300         1,         0\0\x0eS....H2531  TN\0\x1eS....A\0\0\0\x16S\0\0\x03\xe82531  \0\0\0\x02T\x0b\xe4\0Y\0\x1eS....A\0\0\0\x16S\0\0\x03\xe82531  \0\0\0\x02T\x0b\xe4\0Y",
        Cause::LiveReference,
    ),
    (
        b"\0\x20A2010090300         1,         0\0\x1eS....A\0\0\0\x16S\0\0\x03\xe82531  \0\0\0\x02T\x0b\xe4\0Y",
        Cause::NoStock,
    ),
    // with all slots for orders in use, a live reference, and one more order
    (
        b"\0\x20A2010090300         1,         0\0\x0eS....H2531  TN\0\x1eS....A\0\0\0\x16S\0\0\x03\xe82531  \0\0\0\x02T\x0b\xe4\0Y\0\x1eS....A\0\0\0\x17S\0\0\x03\xe82531  \0\0\0\x02T\x0b\xe4\0Y\0\x1eS....A\0\0\0\x16S\0\0\x03\xe82531  \0\0\0\x02T\x0b\xe4\0Y",
        Cause::LiveReference,
    ),
    (
        b"\0\x20A2010090300         1,         0\0\x0eS....H2531  TN\0\x1eS....A\0\0\0\x16S\0\0\x03\xe82531  \0\0\0\x02T\x0b\xe4\0Y\0\x1eS....A\0\0\0\x17S\0\0\x03\xe82531  \0\0\0\x02T\x0b\xe4\0Y\0\x1eS....A\0\0\0\x18S\0\0\x03\xe82531  \0\0\0\x02T\x0b\xe4\0Y",
        Cause::TableFull,
    ),
    // a second stock
    (
        b"\0\x20A2010090300         1,         0\0\x0eS....H2531  TN\0\x0eS....H2914  TN",
        Cause::TableFull,
    ),
    (
        b"\0\x20A2010090300         1,         0\0\x0eS....X\0\0\0\x16\0\0\x03\xe8",
        Cause::InSnapshot,
    ),
    // too short as well
    (
        b"\0\x20A2010090300         1,         0\0\x06S....E",
        Cause::InSnapshot,
    ),
];

#[test]
fn snapshots(rt: HostRuntime) -> Result<(), Fail> {
    for (bytes, cause) in SNAPSHOTS {
        walk(
            &rt,
            &[(Step::StartBySnapshot, Ok(Done), Lamp::Waiting)],
            &[(
                Step::Snapshot(bytes),
                Err(Refusal::SnapshotStopped(cause)),
                Lamp::Waiting,
            )],
        )?;
    }
    Ok(())
}

#[test]
fn a_repair(rt: HostRuntime) -> Result<(), Fail> {
    walk(
        &rt,
        &[
            (Step::StartAtOne, Ok(Done), Lamp::Waiting),
            (
                Step::Packet(b"\0\0\0\x02\0\x002010090300"),
                Ok(Taken(0)),
                Lamp::Gap {
                    wanted: 1,
                    heard: 1,
                },
            ),
        ],
        &[(
            Step::Repair(b"\0\x20A2010090300         1,         0\0\x07S....T.", 1),
            Ok(Repaired(1, Ending::Red)),
            Lamp::Red {
                number: 1,
                cause: Cause::Length,
            },
        )],
    )
}
