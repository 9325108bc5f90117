// Session bytes, their opening, and number fields.
#[cfg(test)]
mod tests {
    use codes::Refusal;
    use session::{NumberField, Opened, SessionMessages, read_number, write_number};
    use std::test::Fail;

    // How many whole messages there are, and the letter of the last.
    fn letters(bytes: &[u8]) -> (usize, Option<u8>) {
        let messages = SessionMessages::new(bytes);
        (
            messages.count(),
            messages.map(|message| message.letter).last(),
        )
    }

    #[test]
    fn whole_messages(rt: HostRuntime) {
        // the last is cut, or has no letter
        let cases: [(&[u8], (usize, Option<u8>)); 6] = [
            (b"", (0, None)),
            (b"\0\x01H\0\x03+hi\0\x06S....T", (3, Some(b'S'))),
            (b"\0\x01H\0\x06S....", (1, Some(b'H'))),
            (b"\0\x01H\0", (1, Some(b'H'))),
            (b"\0\x01H\0\0\0\x01H", (1, Some(b'H'))),
            (b"\x80\0H", (0, None)),
        ];
        for (bytes, expected) in cases {
            assert_eq!(rt; letters(bytes), expected, "at {bytes:?}");
        }
    }

    // A length of 32,767 is the largest; one more is cut, however many bytes follow it.
    #[test]
    fn longest_message(rt: HostRuntime) {
        let mut bytes = [b'H'; 32_770];
        bytes[0] = 0x7f;
        bytes[1] = 0xff;
        assert_eq!(rt; letters(&bytes[0..32_769]), (1, Some(b'H')));
        bytes[0] = 0x80;
        bytes[1] = 0;
        assert_eq!(rt; letters(&bytes), (0, None));
    }

    // Beside `opened`, since that a count fits is found of a parameter, and not of a field.
    fn many(messages: SessionMessages<'_>) -> usize {
        messages.count()
    }

    // The number that a session opens with, and how many messages follow.
    fn opened(bytes: &[u8]) -> Option<(u32, usize)> {
        let open = Opened::read(bytes)?;
        Some((open.number, many(open.messages)))
    }

    #[test]
    fn openings(rt: HostRuntime) {
        // another letter first, a shorter Login Accepted, a leading zero, a cut one
        let cases: [(&[u8], Option<(u32, usize)>); 6] = [
            (
                b"\0\x20A2010090300         2,         0\0\x01H",
                Some((2, 1)),
            ),
            (
                b"\0\x05+test\0\x01H\0\x20A2010090300      3686,         0",
                Some((3686, 0)),
            ),
            (b"\0\x02JA\0\x20A2010090300         2,         0", None),
            (b"\0\x1fA2010090300         2,        0", None),
            (b"\0\x20A2010090300        02,         0", None),
            (b"\0\x20A2010090300         2,        ", None),
        ];
        for (bytes, expected) in cases {
            assert_eq!(rt; opened(bytes), expected, "at {bytes:?}");
        }
    }

    #[test]
    fn session_of_an_opening(rt: HostRuntime) -> Result<(), Fail> {
        let open = Opened::read(b"\0\x20A2010090300         2,         0").ok_or("does not open")?;
        assert_eq!(rt; open.session.bytes(), *b"2010090300");
        Ok(())
    }

    #[test]
    fn number_fields(rt: HostRuntime) {
        let cases: [(&[u8], Option<u32>); 9] = [
            (b"         0", Some(0)),
            (b"2147483647", Some(2_147_483_647)),
            (b"2147483648", None),
            (b"        00", None),
            (b"         1", Some(1)),
            (b"1         ", None),
            (b"       1 2", None),
            (b"        -1", None),
            (b"          ", None),
        ];
        for (bytes, expected) in cases {
            assert_eq!(rt; read_number(bytes), expected, "at {bytes:?}");
        }
    }

    #[test]
    fn written_fields(rt: HostRuntime) {
        let cases: [(u32, Result<NumberField, Refusal>); 4] = [
            (0, Ok(*b"         0")),
            (3686, Ok(*b"      3686")),
            (2_147_483_647, Ok(*b"2147483647")),
            (2_147_483_648, Err(Refusal::NoRequest)),
        ];
        for (number, expected) in cases {
            assert!(rt; write_number(number) == expected, "at {number}");
        }
    }
}
