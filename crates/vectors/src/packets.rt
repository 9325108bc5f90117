// Packets of the feed.
#[cfg(test)]
mod tests {
    use codes::{Cause, Lamp, Refusal};
    use std::process::Abort;
    use std::test::Fail;
    use wire::Packet;

    // What a packet holds, in values that stand in a table: messages are made by reading alone.
    #[derive(Clone, Copy, PartialEq, Eq)]
    enum Sent {
        // the number of the message that comes next
        Heartbeat(u32),
        // the number of the first message, and how many there are
        Data(Option<u32>, usize),
    }

    impl From<Packet<'_>> for Sent {
        fn from(packet: Packet<'_>) -> Sent {
            match packet {
                Packet::Heartbeat { next, .. } => Sent::Heartbeat(next),
                Packet::Data(messages) => Sent::Data(
                    messages.map(|message| message.number).next(),
                    messages.count(),
                ),
            }
        }
    }

    // What a packet holds, or its refusal.
    fn read(bytes: &[u8]) -> Result<Sent, Refusal> {
        Packet::read(bytes).map(Sent::from)
    }

    // The bytes of a packet's message of that number.
    fn numbered(packet: &[u8], number: u32) -> Option<&[u8]> {
        let Ok(Packet::Data(mut messages)) = Packet::read(packet) else {
            return None;
        };
        messages
            .find(|message| message.number == number)
            .map(|message| message.bytes)
    }

    #[test]
    fn samples(rt: HostRuntime) -> Result<(), Fail> {
        let one =
            b"\x00\x00\x1c\xe3\x00\x01\x00\x16\x18\x33\xd8\xb8\x45\x00\x00\x00\x15\x00\x00\x03\xe8\x09\x89\x68\x08\x00\x00\x00\x1e\x55";
        assert!(rt; read(one) == Ok(Sent::Data(Some(7395), 1)));
        assert_eq!(rt;
            numbered(one, 7395),
            Some(
                b"\x18\x33\xd8\xb8\x45\x00\x00\x00\x15\x00\x00\x03\xe8\x09\x89\x68\x08\x00\x00\x00\x1e\x55".as_slice()
            )
        );
        let two =
            b"\x00\x00\x1c\xd7\x00\x02\x00\x05\x00\x01\x0b\x75\x54\x00\x1d\x04\x97\xc0\x30\x41\x00\x00\x00\x16\x53\x00\x00\x03\xe8\x32\x35\x33\x31\x20\x20\x00\x00\x00\x02\x54\x0b\xe4\x00\x59";
        assert!(rt; read(two) == Ok(Sent::Data(Some(7383), 2)));
        assert_eq!(rt;
            numbered(two, 7383),
            Some(b"\x00\x01\x0b\x75\x54".as_slice())
        );
        assert_eq!(rt;
            numbered(two, 7384),
            Some(
                b"\x04\x97\xc0\x30\x41\x00\x00\x00\x16\x53\x00\x00\x03\xe8\x32\x35\x33\x31\x20\x20\x00\x00\x00\x02\x54\x0b\xe4\x00\x59".as_slice()
            )
        );
        let beat = b"\x00\x00\x03\x16\x00\x00\x32\x30\x31\x30\x30\x39\x30\x33\x30\x30";
        assert!(rt; read(beat) == Ok(Sent::Heartbeat(790)));
        let Ok(Packet::Heartbeat { session, .. }) = Packet::read(beat) else {
            return Err(Fail::new("no heartbeat"));
        };
        assert_eq!(rt; session.bytes(), *b"2010090300");
        Ok(())
    }

    // A packet with one message of that length.
    fn one_message(rt: &impl Abort, length: u8) -> Result<Sent, Refusal> {
        let mut bytes = [0; 100];
        bytes[..8].copy_from_slice(&[0, 0, 0, 1, 0, 1, 0, length]);
        let end = 8 + usize::from(length);
        assert!(rt; end <= 100);
        read(&bytes[..end])
    }

    #[test]
    fn lengths_of_a_message(rt: HostRuntime) {
        let cases: [(u8, Result<Sent, Refusal>); 4] = [
            (4, Err(Refusal::PacketLayout)),
            (5, Ok(Sent::Data(Some(1), 1))),
            (80, Ok(Sent::Data(Some(1), 1))),
            (81, Err(Refusal::PacketLayout)),
        ];
        for (length, expected) in cases {
            assert!(rt; one_message(&rt, length) == expected, "at {length}");
        }
    }

    #[test]
    fn numbers_and_counts(rt: HostRuntime) {
        let cases: [(&[u8], Result<Sent, Refusal>); 7] = [
            (b"\0\0\0\x01\0", Err(Refusal::ShortPacket)),
            (b"\0\0\0\0\0\x01\0\x05....T", Err(Refusal::PacketNumbers)),
            (
                b"\x7f\xff\xff\xff\0\x01\0\x05....T",
                Ok(Sent::Data(Some(2_147_483_647), 1)),
            ),
            (
                b"\x7f\xff\xff\xff\0\x02\0\x05....T\0\x05....T",
                Err(Refusal::PacketNumbers),
            ),
            (b"\0\0\0\x01\x80\0", Err(Refusal::PacketNumbers)),
            (
                b"\x7f\xff\xff\xff\0\x002010090300",
                Ok(Sent::Heartbeat(2_147_483_647)),
            ),
            (b"\x80\0\0\0\0\x002010090300", Err(Refusal::PacketNumbers)),
        ];
        for (bytes, expected) in cases {
            assert!(rt; read(bytes) == expected, "at {bytes:?}");
        }
    }

    #[test]
    fn layouts(rt: HostRuntime) {
        // a heartbeat one byte short and one too long; a message cut, a byte left over, a length cut
        let cases: [(&[u8], Result<Sent, Refusal>); 5] = [
            (b"\0\0\0\x01\0\x00201009030", Err(Refusal::PacketLayout)),
            (b"\0\0\0\x01\0\x0020100903001", Err(Refusal::PacketLayout)),
            (b"\0\0\0\x01\0\x01\0\x06....T", Err(Refusal::PacketLayout)),
            (b"\0\0\0\x01\0\x01\0\x05....T.", Err(Refusal::PacketLayout)),
            (b"\0\0\0\x01\0\x02\0\x05....T\0", Err(Refusal::PacketLayout)),
        ];
        for (bytes, expected) in cases {
            assert!(rt; read(bytes) == expected, "at {bytes:?}");
        }
    }

    #[test]
    fn refusals_have_their_numbers(rt: HostRuntime) {
        let refusals = [
            Refusal::Dark,
            Refusal::NotDark,
            Refusal::Red,
            Refusal::ShortPacket,
            Refusal::PacketNumbers,
            Refusal::PacketLayout,
            Refusal::HasBook,
            Refusal::NotOpened,
            Refusal::NoGoodBlock,
            Refusal::OtherSession,
            Refusal::SnapshotCut,
            Refusal::SnapshotStopped(Cause::Length),
            Refusal::Waiting,
            Refusal::NotGreen(Lamp::Dark),
            Refusal::NoStock,
            Refusal::TooFewRows(3),
            Refusal::NoRequest,
        ];
        for (refusal, number) in refusals.iter().zip(1u8..=17) {
            assert_eq!(rt; u8::from(*refusal), number);
        }
    }
}
