// Opening a recovery session, and asking any source for one number.
use recovery::Recovery;
use source::Source;
use std::test::Fail;

pub fn open<'a>(bytes: &'a [u8]) -> Result<Recovery<'a>, Fail> {
    Recovery::open(bytes).map_err(|_| Fail::new("refused"))
}

// The length of the message with a number, and its first byte; none where the number is not held and nothing is written.
pub fn first<S: Source>(source: &mut S, number: u32) -> Option<(usize, u8)> {
    let mut out = [b'.'; 80];
    match source.fetch(number, &mut out) {
        Some(length) => Some((length, out[0])),
        None if out == [b'.'; 80] => None,
        None => Some((0, out[0])),
    }
}
