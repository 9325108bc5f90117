// Stops and new starts, from every lamp.
use crate::walk::Said::{Done, Taken};
use crate::walk::{Step, Turn, walk};
use codes::{Cause, Lamp, Refusal};
use std::process::Abort;
use std::test::Fail;

// After these turns, which end dark: a start that a stop ends before green, and one that leads to green.
fn begin_again(rt: &impl Abort, first: &[Turn<'_>]) -> Result<(), Fail> {
    walk(
        rt,
        first,
        &[
            (Step::StartBySnapshot, Ok(Done), Lamp::Waiting),
            (
                Step::Packet(b"\0\0\0\x09\0\x002010090301"),
                Ok(Taken(0)),
                Lamp::Waiting,
            ),
            (Step::Stop, Ok(Done), Lamp::Dark),
            (Step::StartAtOne, Ok(Done), Lamp::Waiting),
            (
                Step::Packet(b"\0\0\0\x02\0\x002010090300"),
                Ok(Taken(0)),
                Lamp::Gap {
                    wanted: 1,
                    heard: 1,
                },
            ),
            (
                Step::Packet(b"\0\0\0\x01\0\x01\0\x05....T"),
                Ok(Taken(1)),
                Lamp::Green { wanted: 2 },
            ),
        ],
    )
}

#[test]
fn from_dark(rt: HostRuntime) -> Result<(), Fail> {
    begin_again(
        &rt,
        &[
            (
                Step::Packet(b"\0\0\0\x01\0\x01\0\x05....T"),
                Err(Refusal::Dark),
                Lamp::Dark,
            ),
            (Step::Stop, Err(Refusal::Dark), Lamp::Dark),
        ],
    )
}

#[test]
fn from_red(rt: HostRuntime) -> Result<(), Fail> {
    begin_again(
        &rt,
        &[
            (Step::StartAtOne, Ok(Done), Lamp::Waiting),
            (
                Step::Packet(b"\0\0\0\x01\0\x01\0\x06....T."),
                Ok(Taken(1)),
                Lamp::Red {
                    number: 1,
                    cause: Cause::Length,
                },
            ),
            (Step::Stop, Ok(Done), Lamp::Dark),
        ],
    )
}

#[test]
fn from_waiting(rt: HostRuntime) -> Result<(), Fail> {
    begin_again(
        &rt,
        &[
            (Step::StartBySnapshot, Ok(Done), Lamp::Waiting),
            (
                Step::Packet(b"\0\0\0\x02\0\x01\0\x05....T"),
                Ok(Taken(1)),
                Lamp::Waiting,
            ),
            (Step::Stop, Ok(Done), Lamp::Dark),
        ],
    )
}

#[test]
fn from_gap(rt: HostRuntime) -> Result<(), Fail> {
    begin_again(
        &rt,
        &[
            (Step::StartAtOne, Ok(Done), Lamp::Waiting),
            (
                Step::Packet(b"\0\0\0\x02\0\x01\0\x05....T"),
                Ok(Taken(1)),
                Lamp::Gap {
                    wanted: 1,
                    heard: 2,
                },
            ),
            (Step::Stop, Ok(Done), Lamp::Dark),
        ],
    )
}

#[test]
fn from_green(rt: HostRuntime) -> Result<(), Fail> {
    begin_again(
        &rt,
        &[
            (Step::StartAtOne, Ok(Done), Lamp::Waiting),
            (
                Step::Packet(b"\0\0\0\x01\0\x01\0\x05....T"),
                Ok(Taken(1)),
                Lamp::Green { wanted: 2 },
            ),
            (Step::Stop, Ok(Done), Lamp::Dark),
        ],
    )
}
