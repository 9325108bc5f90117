// Pairs of recovery sessions.
use crate::calls::{first, open};
use source::{Pair, Source};
use std::test::Fail;

#[test]
fn same_session(rt: HostRuntime) -> Result<(), Fail> {
    let a = open(b"\0\x20A2010090300         7,         0\0\x06Sa   T")?;
    let b = open(b"\0\x20A2010090300         7,         0\0\x06Sx   T\0\x06Sb   T")?;
    let mut pair = Pair::new(a, b);
    assert!(rt; first(&mut pair, 8) == Some((5, b'b')));
    assert!(rt; first(&mut pair, 7) == Some((5, b'a')));
    assert!(rt; first(&mut pair, 9) == None);
    Ok(())
}

#[test]
fn another_session(rt: HostRuntime) -> Result<(), Fail> {
    let a = open(b"\0\x20A2010090300         7,         0\0\x06Sa   T")?;
    let b = open(b"\0\x20A2010090301         8,         0\0\x06Sb   T")?;
    let mut pair = Pair::new(a, b);
    assert!(rt; pair.session().bytes() == *b"2010090300");
    assert!(rt; first(&mut pair, 7) == Some((5, b'a')));
    assert!(rt; first(&mut pair, 8) == None);
    Ok(())
}

#[test]
fn a_pair_and_a_third(rt: HostRuntime) -> Result<(), Fail> {
    let a = open(b"\0\x20A2010090300         7,         0\0\x06Sa   T")?;
    let b = open(b"\0\x20A2010090300         8,         0\0\x06Sb   T")?;
    let c = open(b"\0\x20A2010090300         8,         0\0\x06Sx   T\0\x06Sc   T")?;
    let mut all = Pair::new(Pair::new(a, b), c);
    assert!(rt; first(&mut all, 9) == Some((5, b'c')));
    assert!(rt; first(&mut all, 8) == Some((5, b'b')));
    assert!(rt; first(&mut all, 7) == Some((5, b'a')));
    Ok(())
}
