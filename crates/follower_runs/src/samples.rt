// The venue's samples of full length.
use crate::walk::Said::{Done, Event, Next, Orders, Taken, Trading};
use crate::walk::{Step, walk};
use codes::EventCode::StartOfTrading;
use codes::Trading::Open;
use codes::{Lamp, Side};
use std::test::Fail;

// Messages 1 to 5: the states of a stock, and an order whose price is revised.
const FIRST_HALF: &[u8] =
    b"\0\0\0\x01\0\x05\0\x0d\09S\xc8H2531  TN\0\x0d\x17&A\x18H2531  AN\0\x1d \x05\x01\x98A\0\0\0\x06B\0\0\x03\xe82531  \0\0\0\0\xb2\xd0^\0Y\0\x0d \x16\x95\x98X\0\0\0\x06\0\0\x03\xe8\0\x1d \x16\x95\x98A\0\0\0\x06B\0\0\x03\xe82531  \0\0\0\0\xb3h\xf4\x80Y";

// Messages 6 to 8: a second order, which trades, and fewer shares of the first.
const SECOND_HALF: &[u8] =
    b"\0\0\0\x06\0\x03\0\x1d$R\x95\x80A\0\0\0\x07B\0\0\x03\xe82531  \0\0\0\0\xb2\xd0^\0Y\0\x0d\x14 \xbd\x90X\0\0\0\x06\0\0\0d\0\x16\x13-1\xe8E\0\0\0\x07\0\0\x03\xe8\x08X;\x04\0\0\0\x08D";

// A price is revised, shares are reduced, and an order that trades leaves the book; the first half comes last.
#[test]
fn orders_come_change_and_leave(rt: HostRuntime) -> Result<(), Fail> {
    let green = Lamp::Green { wanted: 9 };
    walk(
        &rt,
        &[],
        &[
            (Step::StartAtOne, Ok(Done), Lamp::Waiting),
            (
                Step::Packet(SECOND_HALF),
                Ok(Taken(3)),
                Lamp::Gap {
                    wanted: 1,
                    heard: 8,
                },
            ),
            (Step::Packet(FIRST_HALF), Ok(Taken(5)), green),
            (Step::States(b"2531  "), Ok(Trading(Some(Open))), green),
            (Step::Orders(b"2531  ", Side::Buy), Ok(Orders(1)), green),
            (Step::Orders(b"2531  ", Side::Sell), Ok(Orders(0)), green),
        ],
    )
}

// Its End tells 3686.
const SNAPSHOT: &[u8] =
    b"\0 A2010090300         1,         0\0\x01H\0\x07S'?IxSS\0DS'?\x80(V2531  \0\0\0\0\xb2\xd0^\0\0\0\0\0\xb2\xd0^\0\0\0\0\0\xb2\xd0^\0\0\0\0\0\xb2\xd0^\0\0\0\0\0\0\x04\x93\xe0\0\0\0\0\0\0\x03\xe8\0\0\0\0\0\0\0\x01\0\x0eS\09S\xc8H2531  TN\0\x0eS\x17&A\x18H2531  AN\0\x1eS\x13=\xfa\xc8A\0\0\0\x01B\0\0\x03\xe82531  \0\0\0\0\xb2\xd0^\0Y\0\x0aS'?\x80(G\0\0\x0ef";

// Messages 7383 and 7384.
const FAR_AHEAD: &[u8] =
    b"\0\0\x1c\xd7\0\x02\0\x05\0\x01\x0buT\0\x1d\x04\x97\xc00A\0\0\0\x16S\0\0\x03\xe82531  \0\0\0\x02T\x0b\xe4\0Y";

// Message 7395.
const FURTHER_AHEAD: &[u8] =
    b"\0\0\x1c\xe3\0\x01\0\x16\x183\xd8\xb8E\0\0\0\x15\0\0\x03\xe8\x09\x89h\x08\0\0\0\x1eU";

// The messages of a snapshot, and then packets from far ahead, and a heartbeat from long before.
#[test]
fn a_snapshot_and_packets(rt: HostRuntime) -> Result<(), Fail> {
    let green = Lamp::Green { wanted: 3686 };
    walk(
        &rt,
        &[
            (Step::StartBySnapshot, Ok(Done), Lamp::Waiting),
            (Step::Snapshot(SNAPSHOT), Ok(Next(3686)), green),
            (Step::Event, Ok(Event(Some(StartOfTrading))), green),
            (Step::States(b"2531  "), Ok(Trading(Some(Open))), green),
            (Step::Orders(b"2531  ", Side::Buy), Ok(Orders(1)), green),
            (
                Step::Packet(b"\0\0\x03\x16\0\02010090300"),
                Ok(Taken(0)),
                green,
            ),
        ],
        &[
            (
                Step::Packet(FAR_AHEAD),
                Ok(Taken(2)),
                Lamp::Gap {
                    wanted: 3686,
                    heard: 7384,
                },
            ),
            (
                Step::Packet(FURTHER_AHEAD),
                Ok(Taken(1)),
                Lamp::Gap {
                    wanted: 3686,
                    heard: 7395,
                },
            ),
        ],
    )
}
