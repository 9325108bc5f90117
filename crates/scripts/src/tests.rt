// That bytes are read and written, and a session opened, where there is memory.
use crate::{Client, hex, request, words};
use std::test::Fail;

#[test]
fn digits_are_read(rt: HostRuntime) -> Result<(), Fail> {
    let bytes = hex::decode(rt.alloc(), b"00fF7a")?.ok_or("no bytes")?;
    assert_eq!(rt; bytes.as_slice(), [0, 255, 122].as_slice());
    assert!(rt; hex::decode(rt.alloc(), b"00f")?.is_none());
    assert!(rt; hex::decode(rt.alloc(), b"0g")?.is_none());
    Ok(())
}

#[test]
fn digits_are_written(rt: HostRuntime) -> Result<(), Fail> {
    let digits = hex::encode(rt.alloc(), &[0, 255, 122])?;
    assert_eq!(rt; digits.as_str(), "00ff7a");
    Ok(())
}

#[test]
fn so_many_bytes(rt: HostRuntime) -> Result<(), Fail> {
    assert_eq!(rt; words::exactly::<2>(rt.alloc(), "00ff")?, Some([0, 255]));
    assert_eq!(rt; words::exactly::<2>(rt.alloc(), "00ff7a")?, None);
    assert_eq!(rt; words::exactly::<2>(rt.alloc(), "00")?, None);
    Ok(())
}

#[test]
fn numbers(rt: HostRuntime) {
    assert_eq!(rt; words::decimal("18446744073709551615"), Some(u64::MAX));
    assert_eq!(rt; words::decimal("18446744073709551616"), None);
    assert_eq!(rt; words::decimal("+1"), None);
    assert_eq!(rt; words::field("4294967296"), Some(u32::MAX));
}

#[test]
fn a_session(rt: HostRuntime) {
    let mut client = Client::default();
    let login = "4a4f484e2020 70617373776f72642020 32303130303930333030 1";
    assert!(rt; client.login(&rt, login).is_ok());
    assert!(rt; client.beat(&rt).is_ok());
    assert!(rt; client.logout(&rt).is_ok());
    assert!(rt; client.end(&rt).is_ok());
    assert!(rt; request(&rt, &[0, 1, b'O']).is_ok());
}
