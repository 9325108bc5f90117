// Recovery sessions: good, damaged and cut ones, and such as do not open.
use crate::calls::{first, open};
use codes::Refusal;
use recovery::Recovery;
use source::Source;
use std::test::Fail;

// The first bytes of four numbers in turn, where they are held.
fn four(bytes: &[u8], numbers: [u32; 4]) -> Result<[Option<u8>; 4], Fail> {
    let mut source = open(bytes)?;
    Ok(numbers.map(|number| first(&mut source, number).map(|(_, letter)| letter)))
}

#[test]
fn what_is_held(rt: HostRuntime) -> Result<(), Fail> {
    // with debug and heartbeat in between, a stray letter, a second opening, data of 4 bytes, a cut message, a length of 0
    let cases: [(&[u8], [Option<u8>; 4]); 6] = [
        (
            b"\0\x20A2010090300         7,         0\0\x06Sa   T\0\x03+hi\0\x06Sb   T\0\x01H\0\x06Sc   T",
            [Some(b'a'), Some(b'b'), Some(b'c'), None],
        ),
        (
            b"\0\x20A2010090300         7,         0\0\x06Sa   T\0\x02JA\0\x06Sb   T",
            [Some(b'a'), None, None, None],
        ),
        (
            b"\0\x20A2010090300         7,         0\0\x06Sa   T\0\x20A2010090300         8,         0\0\x06Sb   T",
            [Some(b'a'), None, None, None],
        ),
        (
            b"\0\x20A2010090300         7,         0\0\x06Sa   T\0\x05Sb  T\0\x06Sc   T",
            [Some(b'a'), None, None, None],
        ),
        (
            b"\0\x20A2010090300         7,         0\0\x06Sa   T\0\x06Sb   T\0\x07Sc   T",
            [Some(b'a'), Some(b'b'), None, None],
        ),
        (
            b"\0\x20A2010090300         7,         0\0\x06Sa   T\0\0\0\x06Sb   T",
            [Some(b'a'), None, None, None],
        ),
    ];
    for (bytes, expected) in cases {
        assert!(rt; four(bytes, [7, 8, 9, 10])? == expected);
    }
    Ok(())
}

#[test]
fn in_any_order(rt: HostRuntime) -> Result<(), Fail> {
    let bytes =
        b"\0\x20A2010090300         7,         0\0\x06Sa   T\0\x06Sb   T\0\x01H\0\x06Sc   T";
    // backwards, far away and back, and before the first
    let cases = [
        (
            [9, 8, 7, 8],
            [Some(b'c'), Some(b'b'), Some(b'a'), Some(b'b')],
        ),
        (
            [9, 4_294_967_295, 8, 9],
            [Some(b'c'), None, Some(b'b'), Some(b'c')],
        ),
        ([0, 6, 7, 10], [None, None, Some(b'a'), None]),
    ];
    for (numbers, expected) in cases {
        assert!(rt; four(bytes, numbers)? == expected);
    }
    Ok(())
}

// 80 bytes are held, and 81 end the session.
#[test]
fn longest_message(rt: HostRuntime) -> Result<(), Fail> {
    let mut source = open(
        b"\0\x20A2010090300         7,         0\0\x51Sa234567890123456789012345678901234567890123456789012345678901234567890123456789z\0\x52Sb234567890123456789012345678901234567890123456789012345678901234567890123456789zz\0\x06Sc   T",
    )?;
    assert!(rt; first(&mut source, 7) == Some((80, b'a')));
    assert!(rt; first(&mut source, 8) == None);
    assert!(rt; first(&mut source, 9) == None);
    Ok(())
}

#[test]
fn largest_number(rt: HostRuntime) -> Result<(), Fail> {
    let mut source = open(b"\0\x20A20100903002147483647,         0\0\x06Sa   T\0\x06Sb   T")?;
    assert!(rt; first(&mut source, 2_147_483_647) == Some((5, b'a')));
    assert!(rt; first(&mut source, 2_147_483_648) == None);
    Ok(())
}

#[test]
fn what_is_written(rt: HostRuntime) -> Result<(), Fail> {
    let mut source = open(b"\0\x20A2010090300         7,         0\0\x06Sabc T")?;
    assert!(rt; source.session().bytes() == *b"2010090300");
    let mut out = [b'.'; 80];
    assert!(rt; source.fetch(8, &mut out) == None);
    assert!(rt; out == [b'.'; 80]);
    assert!(rt; source.fetch(7, &mut out) == Some(5));
    let mut expected = [b'.'; 80];
    expected[0..5].copy_from_slice(b"abc T");
    assert!(rt; out == expected);
    Ok(())
}

#[test]
fn refused(rt: HostRuntime) {
    // nothing, another letter first, a cut Login Accepted, the number 0; and the number 1, with nothing carried
    let cases: [(&[u8], Option<Refusal>); 5] = [
        (b"", Some(Refusal::NotOpened)),
        (
            b"\0\x06Sa   T\0\x20A2010090300         7,         0",
            Some(Refusal::NotOpened),
        ),
        (
            b"\0\x20A2010090300         7,        ",
            Some(Refusal::NotOpened),
        ),
        (
            b"\0\x20A2010090300         0,         0\0\x06Sa   T",
            Some(Refusal::NotOpened),
        ),
        (b"\0\x01H\0\x20A2010090300         1,         0", None),
    ];
    for (bytes, expected) in cases {
        assert!(rt; Recovery::open(bytes).err() == expected);
    }
}
