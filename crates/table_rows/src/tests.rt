use super::*;
use std::test::Fail;
use table::NotAdded;

fn row(number: u32) -> Named {
    Named {
        number,
        name: *b"ZXYABC",
    }
}

// Whether the entries have these numbers, in this order.
fn holds(all: &[Named], numbers: [u32; 3]) -> bool {
    all.iter().map(|entry| entry.number).eq(numbers)
}

#[test]
fn no_slots(rt: HostRuntime) {
    let mut slots = [row(0); 0];
    let mut t = Table::new(&mut slots, ByNumber);
    assert!(rt; t.add(row(1)) == Err(NotAdded::Full));
    assert!(rt; t.remove(1).is_none());
    t.remove_first(1);
    t.remove_below(1);
    assert!(rt; t.count() == 0 && t.capacity() == 0);
}

#[test]
fn keeps_order_and_uses_freed_slots(rt: HostRuntime) {
    let mut slots = [row(9); 3];
    let mut t = Table::new(&mut slots, ByNumber);
    assert!(rt; t.get(9).is_none());
    assert!(rt; t.add(row(5)).is_ok());
    assert!(rt; t.add(row(2)).is_ok());
    assert!(rt; t.add(row(8)).is_ok());
    assert!(rt; holds(t.entries(), [2, 5, 8]));
    assert!(rt; t.add(row(5)) == Err(NotAdded::Present));
    assert!(rt; t.add(row(6)) == Err(NotAdded::Full));
    assert!(rt; t.remove(2).is_some());
    assert!(rt; t.add(row(6)).is_ok());
    assert!(rt; holds(t.entries(), [5, 6, 8]));
}

#[test]
fn lets_go_from_the_front(rt: HostRuntime) -> Result<(), Fail> {
    let mut slots = [row(0); 5];
    let mut t = Table::new(&mut slots, ByNumber);
    for n in [4, 3, 2, 1, 0] {
        assert!(rt; t.add(row(n)).is_ok());
    }
    t.remove_first(2);
    assert!(rt; holds(t.entries(), [2, 3, 4]));
    t.remove_below(4);
    assert!(rt; t.count() == 1);
    assert!(rt; t.get(4).is_some());
    t.remove_first(7);
    assert!(rt; t.count() == 0);
    Ok(())
}

#[test]
fn one_row_in_two_orders(rt: HostRuntime) {
    let mut numbers = [row(0); 2];
    let mut names = [row(0); 2];
    let mut d = Directory::new(&mut numbers, &mut names);
    assert!(rt;
        d.add(Named {
            number: 1,
            name: *b"B     ",
        })
        .is_ok()
    );
    assert!(rt;
        d.add(Named {
            number: 2,
            name: *b"B     ",
        }) == Err(NotAdded::Present)
    );
    assert!(rt; d.numbered(2).is_none());
    assert!(rt;
        d.add(Named {
            number: 3,
            name: *b"A     ",
        })
        .is_ok()
    );
    assert!(rt;
        d.add(Named {
            number: 4,
            name: *b"C     ",
        }) == Err(NotAdded::Full)
    );
    assert!(rt; d.remove(1).is_some());
    assert!(rt; d.named(*b"B     ").is_none());
    assert!(rt; d.named(*b"A     ").is_some());
}

#[test]
fn an_order_of_its_own(rt: HostRuntime) {
    let mut slots = [row(0); 3];
    let mut t = Table::new(&mut slots, HighestFirst);
    assert!(rt; t.add(row(2)).is_ok());
    assert!(rt; t.add(row(8)).is_ok());
    assert!(rt; t.add(row(5)).is_ok());
    assert!(rt; holds(t.entries(), [8, 5, 2]));
    assert!(rt; t.get(8).is_some());
    t.remove_below(5);
    assert!(rt; t.get(8).is_none());
    assert!(rt; t.count() == 2);
}
