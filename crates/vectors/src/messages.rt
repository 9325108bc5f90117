// Messages of the feed and of a snapshot.
#[cfg(test)]
mod tests {
    use codes::{Cause, EventCode, ShortSell, Side, Status, Trading};
    use wire::{Message, SnapshotMessage, SymbolBytes};

    // What a message says, in values that stand in a table: an order and a symbol are made by reading alone.
    #[derive(Clone, Copy, PartialEq, Eq)]
    enum Said {
        Second,
        Event(EventCode),
        Status(SymbolBytes, Status),
        // reference, side, shares, symbol and price
        Added(u32, Side, u32, SymbolBytes, u64),
        // reference and shares
        Executed(u32, u32),
        Canceled(u32, u32),
        Other,
        // the next number, at the end of a snapshot
        End(u32),
    }

    impl From<Message> for Said {
        fn from(message: Message) -> Said {
            match message {
                Message::Second => Said::Second,
                Message::Event(code) => Said::Event(code),
                Message::StockStatus { symbol, status } => Said::Status(symbol.bytes(), status),
                Message::Add(order) => {
                    let row = order.row();
                    Said::Added(
                        row.reference,
                        row.side,
                        row.shares,
                        row.symbol.bytes(),
                        row.price,
                    )
                }
                Message::Execute { reference, shares } => Said::Executed(reference, shares),
                Message::Cancel { reference, shares } => Said::Canceled(reference, shares),
                Message::Other => Said::Other,
            }
        }
    }

    impl From<SnapshotMessage> for Said {
        fn from(message: SnapshotMessage) -> Said {
            match message {
                SnapshotMessage::Message(message) => Said::from(message),
                SnapshotMessage::End { next } => Said::End(next),
            }
        }
    }

    // What the bytes say in the feed, or their cause.
    fn in_the_feed(bytes: &[u8]) -> Result<Said, Cause> {
        Message::read(bytes).map(Said::from)
    }

    // The same in a snapshot.
    fn in_a_snapshot(bytes: &[u8]) -> Result<Said, Cause> {
        SnapshotMessage::read(bytes).map(Said::from)
    }

    #[test]
    fn orders_added(rt: HostRuntime) {
        let cases: [(&[u8], Result<Said, Cause>); 8] = [
            (
                b"\x04\x97\xc0\x30\x41\x00\x00\x00\x16\x53\x00\x00\x03\xe8\x32\x35\x33\x31\x20\x20\x00\x00\x00\x02\x54\x0b\xe4\x00\x59",
                Ok(Said::Added(22, Side::Sell, 1000, *b"2531  ", 10_000_000_000)),
            ),
            (
                b"\x20\x05\x01\x98\x41\x00\x00\x00\x06\x42\x00\x00\x03\xe8\x32\x35\x33\x31\x20\x20\x00\x00\x00\x00\xb2\xd0\x5e\x00\x59",
                Ok(Said::Added(6, Side::Buy, 1000, *b"2531  ", 3_000_000_000)),
            ),
            (
                b"\x20\x16\x95\x98\x41\x00\x00\x00\x06\x42\x00\x00\x03\xe8\x32\x35\x33\x31\x20\x20\x00\x00\x00\x00\xb3\x68\xf4\x80\x59",
                Ok(Said::Added(6, Side::Buy, 1000, *b"2531  ", 3_010_000_000)),
            ),
            (
                b"\x24\x52\x95\x80\x41\x00\x00\x00\x07\x42\x00\x00\x03\xe8\x32\x35\x33\x31\x20\x20\x00\x00\x00\x00\xb2\xd0\x5e\x00\x59",
                Ok(Said::Added(7, Side::Buy, 1000, *b"2531  ", 3_000_000_000)),
            ),
            (
                b"\x35\x04\xe8\x10\x41\x00\x00\x00\x08\x53\x00\x00\x03\xe8\x32\x35\x33\x31\x20\x20\x00\x00\x00\x00\xb3\x68\xf4\x80\x59",
                Ok(Said::Added(8, Side::Sell, 1000, *b"2531  ", 3_010_000_000)),
            ),
            (
                b"\x1b\x47\xfa\x70\x41\x00\x00\x00\x09\x42\x00\x00\x03\xe8\x32\x35\x33\x31\x20\x20\x00\x00\x00\x00\xb3\x68\xf4\x80\x59",
                Ok(Said::Added(9, Side::Buy, 1000, *b"2531  ", 3_010_000_000)),
            ),
            (
                b"\x06\xc9\x13\x68\x41\x00\x00\x00\x0c\x42\x00\x00\x03\xe8\x32\x35\x33\x31\x20\x20\x00\x00\x00\x00\xb3\x68\xf4\x80\x59",
                Ok(Said::Added(12, Side::Buy, 1000, *b"2531  ", 3_010_000_000)),
            ),
            (
                b"\x30\x7c\xe3\x38\x41\x00\x00\x00\x0d\x42\x00\x00\x03\xe8\x32\x35\x33\x31\x20\x20\x00\x00\x00\x00\xb3\x68\xf4\x80\x59",
                Ok(Said::Added(13, Side::Buy, 1000, *b"2531  ", 3_010_000_000)),
            ),
        ];
        for (bytes, expected) in cases {
            assert!(rt; in_the_feed(bytes) == expected, "at {bytes:?}");
        }
    }

    #[test]
    fn shares_taken_off(rt: HostRuntime) {
        let cases: [(&[u8], Result<Said, Cause>); 8] = [
            (
                b"\x18\x33\xd8\xb8\x45\x00\x00\x00\x15\x00\x00\x03\xe8\x09\x89\x68\x08\x00\x00\x00\x1e\x55",
                Ok(Said::Executed(21, 1000)),
            ),
            (
                b"\x13\x2d\x31\xe8\x45\x00\x00\x00\x07\x00\x00\x03\xe8\x08\x58\x3b\x04\x00\x00\x00\x08\x44",
                Ok(Said::Executed(7, 1000)),
            ),
            (
                b"\x0a\x2c\x9d\x40\x45\x00\x00\x00\x09\x00\x00\x01\xf4\x08\x58\x3b\x05\x00\x00\x00\x0a\x2b",
                Ok(Said::Executed(9, 500)),
            ),
            (
                b"\x06\xc9\x13\x68\x45\x00\x00\x00\x09\x00\x00\x01\xf4\x08\x58\x3b\x06\x00\x00\x00\x0b\x55",
                Ok(Said::Executed(9, 500)),
            ),
            (
                b"\x0a\xcf\x5d\x50\x45\x00\x00\x00\x0d\x00\x00\x03\xe8\x08\x58\x3b\x07\x00\x00\x00\x0e\x55",
                Ok(Said::Executed(13, 1000)),
            ),
            (
                b"\x20\x16\x95\x98\x58\x00\x00\x00\x06\x00\x00\x03\xe8",
                Ok(Said::Canceled(6, 1000)),
            ),
            (
                b"\x14\x20\xbd\x90\x58\x00\x00\x00\x06\x00\x00\x00\x64",
                Ok(Said::Canceled(6, 100)),
            ),
            (
                b"\x13\x2d\x31\xe8\x58\x00\x00\x00\x08\x00\x00\x03\xe8",
                Ok(Said::Canceled(8, 1000)),
            ),
        ];
        for (bytes, expected) in cases {
            assert!(rt; in_the_feed(bytes) == expected, "at {bytes:?}");
        }
    }

    #[test]
    fn states_and_the_rest(rt: HostRuntime) {
        let cases: [(&[u8], Result<Said, Cause>); 8] = [
            (
                b"\x00\x39\x53\xc8\x48\x32\x35\x33\x31\x20\x20\x54\x4e",
                Ok(Said::Status(*b"2531  ", Status::Trading(Trading::Open))),
            ),
            (
                b"\x17\x26\x41\x18\x48\x32\x35\x33\x31\x20\x20\x41\x4e",
                Ok(Said::Status(*b"2531  ", Status::ShortSell(ShortSell::Active))),
            ),
            (
                b"\x01\xde\x7c\x30\x48\x32\x39\x31\x34\x20\x20\x54\x4e",
                Ok(Said::Status(*b"2914  ", Status::Trading(Trading::Open))),
            ),
            (
                b"\x26\x7e\xa1\x28\x48\x32\x39\x31\x34\x20\x20\x44\x4e",
                Ok(Said::Status(*b"2914  ", Status::ShortSell(ShortSell::Inactive))),
            ),
            (b"\x00\x01\x0b\x75\x54", Ok(Said::Second)),
            (
                b"\x06\xc9\x13\x68\x50\x00\x00\x00\x00\x42\x00\x00\x0d\xac\x32\x35\x33\x31\x20\x20\x00\x00\x00\x00\xb3\x68\xf4\x80\x08\x58\x3b\x06\x00\x00\x00\x00",
                Ok(Said::Other),
            ),
            (b"\x19\x4f\x6a\x78\x42\x08\x58\x3b\x07", Ok(Said::Other)),
            (b"\x27\x3f\x80\x28\x47\x00\x00\x0e\x66", Ok(Said::Other)),
        ];
        for (bytes, expected) in cases {
            assert!(rt; in_the_feed(bytes) == expected, "at {bytes:?}");
        }
    }

    #[test]
    fn samples_not_of_full_length(rt: HostRuntime) {
        // printed one or two bytes short, so their length is no kind's
        let cases: [(&[u8], Result<Said, Cause>); 5] = [
            (
                b"\x13\x3d\xfa\xc8\x41\x00\x00\x01\x42\x00\x00\x03\xe8\x32\x35\x33\x31\x20\x20\x00\x00\x00\xb2\xd0\x5e\x00\x59",
                Err(Cause::Length),
            ),
            (
                b"\x00\x86\x2b\xa8\x45\x00\x00\x01\x00\x00\x03\xe8\x08\x58\x3b\x01\x00\x00\x00\x02\x2d",
                Err(Cause::Length),
            ),
            (
                b"\x22\x62\x1f\xc0\x41\x00\x00\x03\x42\x00\x00\x03\xe8\x32\x35\x33\x31\x20\x20\x00\x00\x00\xb2\xd0\x5e\x00\x59",
                Err(Cause::Length),
            ),
            (
                b"\x05\x4c\x3b\x50\x45\x00\x00\x03\x00\x00\x03\xe8\x08\x58\x3b\x02\x00\x00\x00\x04\x44",
                Err(Cause::Length),
            ),
            (
                b"\x05\x4c\x3b\x50\x41\x00\x00\x04\x53\x00\x00\x07\xd0\x32\x35\x33\x31\x20\x20\x00\x00\x00\xb2\xd0\x5e\x00\x59",
                Err(Cause::Length),
            ),
        ];
        for (bytes, expected) in cases {
            assert!(rt; in_the_feed(bytes) == expected, "at {bytes:?}");
        }
    }

    #[test]
    fn snapshot_samples(rt: HostRuntime) {
        let cases: [(&[u8], Result<Said, Cause>); 8] = [
            (
                b"\x27\x3f\x49\x78\x53\x53",
                Ok(Said::Event(EventCode::StartOfTrading)),
            ),
            (
                b"\x27\x3f\x80\x28\x56\x32\x35\x33\x31\x20\x20\x00\x00\x00\x00\xb2\xd0\x5e\x00\x00\x00\x00\x00\xb2\xd0\x5e\x00\x00\x00\x00\x00\xb2\xd0\x5e\x00\x00\x00\x00\x00\xb2\xd0\x5e\x00\x00\x00\x00\x00\x00\x04\x93\xe0\x00\x00\x00\x00\x00\x00\x03\xe8\x00\x00\x00\x00\x00\x00\x00\x01",
                Ok(Said::Other),
            ),
            (
                b"\x00\x39\x53\xc8\x48\x32\x35\x33\x31\x20\x20\x54\x4e",
                Ok(Said::Status(*b"2531  ", Status::Trading(Trading::Open))),
            ),
            (
                b"\x17\x26\x41\x18\x48\x32\x35\x33\x31\x20\x20\x41\x4e",
                Ok(Said::Status(*b"2531  ", Status::ShortSell(ShortSell::Active))),
            ),
            (
                b"\x01\xde\x7c\x30\x48\x32\x39\x31\x34\x20\x20\x54\x4e",
                Ok(Said::Status(*b"2914  ", Status::Trading(Trading::Open))),
            ),
            (
                b"\x26\x7e\xa1\x28\x48\x32\x39\x31\x34\x20\x20\x44\x4e",
                Ok(Said::Status(*b"2914  ", Status::ShortSell(ShortSell::Inactive))),
            ),
            (
                b"\x13\x3d\xfa\xc8\x41\x00\x00\x00\x01\x42\x00\x00\x03\xe8\x32\x35\x33\x31\x20\x20\x00\x00\x00\x00\xb2\xd0\x5e\x00\x59",
                Ok(Said::Added(1, Side::Buy, 1000, *b"2531  ", 3_000_000_000)),
            ),
            (b"\x27\x3f\x80\x28\x47\x00\x00\x0e\x66", Ok(Said::End(3686))),
        ];
        for (bytes, expected) in cases {
            assert!(rt; in_a_snapshot(bytes) == expected, "at {bytes:?}");
        }
    }

    #[test]
    fn causes_of_the_bytes(rt: HostRuntime) {
        // a wrong length before an unlisted code, and that alone
        let cases: [(&[u8], Result<Said, Cause>); 7] = [
            (b"....SXX", Err(Cause::Length)),
            (b"....SX", Err(Cause::Field)),
            (b"....H2531  X.", Err(Cause::Field)),
            (b"....X\0\0\0\x01\0\0\0\0", Err(Cause::Field)),
            (b"....T.", Err(Cause::Length)),
            (b"....", Err(Cause::Length)),
            (b"....A....X....2531  ........N.", Err(Cause::Length)),
        ];
        for (bytes, expected) in cases {
            assert!(rt; in_the_feed(bytes) == expected, "at {bytes:?}");
        }
    }

    #[test]
    fn causes_in_a_snapshot(rt: HostRuntime) {
        // an execution or a cancel has its own cause, whatever its length
        let cases: [(&[u8], Result<Said, Cause>); 6] = [
            (b"....G\0\0\0\0", Err(Cause::Field)),
            (b"....G\x80\0\0\0", Err(Cause::Field)),
            (b"....G\0\0\0", Err(Cause::Length)),
            (b"....E", Err(Cause::InSnapshot)),
            (
                b"\x20\x16\x95\x98\x58\x00\x00\x00\x06\x00\x00\x03\xe8",
                Err(Cause::InSnapshot),
            ),
            (b"....SX", Err(Cause::Field)),
        ];
        for (bytes, expected) in cases {
            assert!(rt; in_a_snapshot(bytes) == expected, "at {bytes:?}");
        }
    }

    // An order of that reference, shares and price, as an Add Order message: each field is copied to its place.
    fn added(reference: u32, shares: u32, price: u64) -> [u8; 29] {
        let mut m = *b"....A....B....2531  ........Y";
        m[5..9].copy_from_slice(&reference.to_be_bytes());
        m[10..14].copy_from_slice(&shares.to_be_bytes());
        m[20..28].copy_from_slice(&price.to_be_bytes());
        m
    }

    #[test]
    fn limits_of_an_order(rt: HostRuntime) {
        let cases: [(u32, u32, u64, Result<(), Cause>); 7] = [
            (0, 1, 1, Ok(())),
            (2_147_483_647, 2_147_483_647, 1_000_000_000_000_000, Ok(())),
            (2_147_483_648, 1, 1, Err(Cause::Field)),
            (1, 0, 1, Err(Cause::Field)),
            (1, 2_147_483_648, 1, Err(Cause::Field)),
            (1, 1, 0, Err(Cause::Field)),
            (1, 1, 1_000_000_000_000_001, Err(Cause::Field)),
        ];
        for (reference, shares, price, expected) in cases {
            let said = Said::Added(reference, Side::Buy, shares, *b"2531  ", price);
            assert!(rt; in_the_feed(&added(reference, shares, price)) == expected.map(|()| said));
        }
    }

    #[test]
    fn codes_have_their_letters(rt: HostRuntime) {
        for (cause, letter) in [
            (Cause::Length, 'a'),
            (Cause::Field, 'b'),
            (Cause::LiveReference, 'c'),
            (Cause::NoStock, 'd'),
            (Cause::NoOrder, 'e'),
            (Cause::TooManyShares, 'f'),
            (Cause::TableFull, 'g'),
            (Cause::InSnapshot, 'h'),
        ] {
            assert!(rt; char::from(cause) == letter);
        }
        for (code, letter) in [
            (EventCode::StartOfMessages, 'O'),
            (EventCode::StartOfTrading, 'S'),
            (EventCode::EndOfSystem, 'E'),
            (EventCode::EndOfMessages, 'C'),
        ] {
            assert!(rt; char::from(code) == letter);
        }
        assert!(rt; char::from(Trading::Halted) == 'H' && char::from(Trading::Open) == 'T');
        assert!(rt; char::from(ShortSell::Active) == 'A' && char::from(ShortSell::Inactive) == 'D');
        assert!(rt; char::from(Side::Buy) == 'B' && char::from(Side::Sell) == 'S');
    }
}
