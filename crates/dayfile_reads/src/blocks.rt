// One block alone: which are good.
#[cfg(test)]
mod tests {
    use crate::making::tests::{Block, block, opened, sealed};
    use codes::Refusal;
    use dayfile::block_check;

    #[test]
    fn check_of_a_block(rt: HostRuntime) {
        let mut block = [0; 512];
        assert!(rt; block_check(&block) == 0);
        block[509] = 255;
        assert!(rt; block_check(&block) == 64_529);
        block[510] = 255;
        assert!(rt; block_check(&block) == 64_529);
    }

    #[test]
    fn packets(rt: HostRuntime) {
        // good; a number of 0; no messages, and a heartbeat; a length of 4, one of 81; a byte behind
        let cases: [(&[u8], Result<u8, Refusal>); 7] = [
            (b"\0\0\0\x01\0\x01\0\x05....T", Ok(b'A')),
            (b"\0\0\0\0\0\x01\0\x05....T", Err(Refusal::NoGoodBlock)),
            (b"\0\0\0\x01\0\0", Err(Refusal::NoGoodBlock)),
            (b"\0\0\0\x01\0\0A123456789", Err(Refusal::NoGoodBlock)),
            (b"\0\0\0\x01\0\x01\0\x04...T", Err(Refusal::NoGoodBlock)),
            (b"\0\0\0\x01\0\x01\0\x51....T", Err(Refusal::NoGoodBlock)),
            (
                b"\0\0\0\x01\0\x01\0\x05....T\x01",
                Err(Refusal::NoGoodBlock),
            ),
        ];
        for (packet, expected) in cases {
            let made = block(b"A123456789", packet);
            assert!(rt; opened(&made) == expected);
        }
    }

    #[test]
    fn damage(rt: HostRuntime) {
        let made = block(b"A123456789", b"\0\0\0\x01\0\x01\0\x05....T");
        let mut wrong_check = made;
        wrong_check[511] ^= 1;
        assert!(rt; opened(&wrong_check) == Err(Refusal::NoGoodBlock));
        let mut wrong_byte = made;
        wrong_byte[20] ^= 1;
        assert!(rt; opened(&wrong_byte) == Err(Refusal::NoGoodBlock));
        assert!(rt; opened(&sealed(wrong_byte)) == Ok(b'A'));
    }

    // Six messages of 80 zeros, which leave two bytes of the packet's room.
    fn six(count: u8, last: u8) -> Block {
        let mut block = [0; 512];
        block[0] = b'A';
        block[13] = 1;
        block[15] = count;
        for message in block[16..508].chunks_exact_mut(82) {
            message[1] = 80;
        }
        block[509] = last;
        sealed(block)
    }

    #[test]
    fn full_block(rt: HostRuntime) {
        // the zeros of the last message are its own; a seventh message is cut; behind the sixth something follows
        let cases: [(u8, u8, Result<u8, Refusal>); 4] = [
            (6, 0, Ok(b'A')),
            (5, 0, Err(Refusal::NoGoodBlock)),
            (7, 5, Err(Refusal::NoGoodBlock)),
            (6, 5, Err(Refusal::NoGoodBlock)),
        ];
        for (count, last, expected) in cases {
            assert!(rt; opened(&six(count, last)) == expected);
        }
    }
}
