// Files of three blocks: the session, and what is held under which number.
#[cfg(test)]
mod tests {
    use crate::making::tests::{block, file, letters, opened};
    use codes::Refusal;
    use std::test::Fail;

    #[test]
    fn first_good_block(rt: HostRuntime) -> Result<(), Fail> {
        let mut damaged = block(b"C123456789", b"\0\0\0\x01\0\x01\0\x05....c");
        damaged[100] = 1;
        let good = block(b"A123456789", b"\0\0\0\x02\0\x01\0\x05....a");
        let foreign = block(b"B123456789", b"\0\0\0\x03\0\x01\0\x05....b");
        assert!(rt; opened(&file(&damaged, &good, &foreign)) == Ok(b'A'));
        assert!(rt;
            letters(&file(&damaged, &good, &foreign), [1, 2, 3, 2])?
                == [None, Some(b'a'), None, Some(b'a')]
        );
        assert!(rt; opened(&file(&damaged, &foreign, &good)) == Ok(b'B'));
        assert!(rt;
            letters(&file(&damaged, &foreign, &good), [1, 2, 3, 2])?
                == [None, None, Some(b'b'), None]
        );
        assert!(rt; opened(&file(&damaged, &damaged, &damaged)) == Err(Refusal::NoGoodBlock));
        assert!(rt; opened(b"") == Err(Refusal::NoGoodBlock));
        Ok(())
    }

    #[test]
    fn doubled_blocks(rt: HostRuntime) -> Result<(), Fail> {
        let early = block(b"A123456789", b"\0\0\0\x01\0\x02\0\x05....a\0\x05....b");
        let late = block(b"A123456789", b"\0\0\0\x02\0\x02\0\x05....x\0\x05....y");
        let bytes = file(&early, &late, &early);
        assert!(rt; letters(&bytes, [1, 2, 3, 4])? == [Some(b'a'), Some(b'b'), Some(b'y'), None]);
        assert!(rt; letters(&bytes, [4, 3, 2, 1])? == [None, Some(b'y'), Some(b'b'), Some(b'a')]);
        let bytes = file(&late, &early, &late);
        assert!(rt; letters(&bytes, [1, 2, 3, 4])? == [Some(b'a'), Some(b'x'), Some(b'y'), None]);
        assert!(rt; letters(&bytes, [0, 2, 2, u32::MAX])? == [None, Some(b'x'), Some(b'x'), None]);
        Ok(())
    }

    #[test]
    fn disordered_blocks(rt: HostRuntime) -> Result<(), Fail> {
        let one = block(b"A123456789", b"\0\0\0\x01\0\x01\0\x05....a");
        let two = block(b"A123456789", b"\0\0\0\x02\0\x01\0\x05....b");
        let four = block(b"A123456789", b"\0\0\0\x04\0\x01\0\x05....d");
        let bytes = file(&four, &one, &two);
        assert!(rt; letters(&bytes, [1, 2, 3, 4])? == [Some(b'a'), Some(b'b'), None, Some(b'd')]);
        assert!(rt; letters(&bytes, [4, 3, 2, 1])? == [Some(b'd'), None, Some(b'b'), Some(b'a')]);
        let bytes = file(&four, &two, &one);
        assert!(rt; letters(&bytes, [1, 2, 3, 4])? == [Some(b'a'), Some(b'b'), None, Some(b'd')]);
        assert!(rt; letters(&bytes, [3, 3, 4, 1])? == [None, None, Some(b'd'), Some(b'a')]);
        Ok(())
    }

    #[test]
    fn short_tail(rt: HostRuntime) -> Result<(), Fail> {
        let one = block(b"A123456789", b"\0\0\0\x01\0\x01\0\x05....a");
        let two = block(b"A123456789", b"\0\0\0\x02\0\x01\0\x05....b");
        let three = block(b"A123456789", b"\0\0\0\x03\0\x01\0\x05....c");
        let bytes = file(&one, &two, &three);
        assert!(rt; letters(&bytes, [1, 2, 3, 4])? == [Some(b'a'), Some(b'b'), Some(b'c'), None]);
        assert!(rt;
            letters(&bytes[0..1535], [1, 2, 3, 4])? == [Some(b'a'), Some(b'b'), None, None]
        );
        assert!(rt; opened(&bytes[0..511]) == Err(Refusal::NoGoodBlock));
        Ok(())
    }
}
