// Stocks and their states, the refusals of the questions, and a snapshot's messages.
#[cfg(test)]
mod tests {
    use crate::lent;
    use book::{Book, Stock};
    use codes::EventCode::StartOfTrading;
    use codes::ShortSell::{Active, Inactive};
    use codes::Trading::{Halted, Open};
    use codes::{Cause, EventCode, Refusal, ShortSell, Side, Trading};
    use std::test::Fail;
    use wire::Symbol;

    // What the book tells: its event code, and the two states of a stock.
    type Told = (
        Option<EventCode>,
        Result<(Option<Trading>, Option<ShortSell>), Refusal>,
    );

    // A message, its answer, and then what the book tells with 2531 and with 2914.
    type Step<'a> = (&'a [u8], Result<(), Cause>, Told, Told);

    const STEPS: [Step<'_>; 8] = [
        (
            b"\x00\x39\x53\xc8\x48\x32\x35\x33\x31\x20\x20\x54\x4e",
            Ok(()),
            (None, Ok((Some(Open), None))),
            (None, Err(Refusal::NoStock)),
        ),
        (
            b"\x17\x26\x41\x18\x48\x32\x35\x33\x31\x20\x20\x41\x4e",
            Ok(()),
            (None, Ok((Some(Open), Some(Active)))),
            (None, Err(Refusal::NoStock)),
        ),
        (
            b"\x01\xde\x7c\x30\x48\x32\x39\x31\x34\x20\x20\x54\x4e",
            Ok(()),
            (None, Ok((Some(Open), Some(Active)))),
            (None, Ok((Some(Open), None))),
        ),
        (
            b"\x26\x7e\xa1\x28\x48\x32\x39\x31\x34\x20\x20\x44\x4e",
            Ok(()),
            (None, Ok((Some(Open), Some(Active)))),
            (None, Ok((Some(Open), Some(Inactive)))),
        ),
        (
            b"\x27\x3f\x49\x78\x53\x53",
            Ok(()),
            (Some(StartOfTrading), Ok((Some(Open), Some(Active)))),
            (Some(StartOfTrading), Ok((Some(Open), Some(Inactive)))),
        ),
        (
            b"....H2531  H.",
            Ok(()),
            (Some(StartOfTrading), Ok((Some(Halted), Some(Active)))),
            (Some(StartOfTrading), Ok((Some(Open), Some(Inactive)))),
        ),
        (
            b"....H9999  T.",
            Err(Cause::TableFull),
            (Some(StartOfTrading), Ok((Some(Halted), Some(Active)))),
            (Some(StartOfTrading), Ok((Some(Open), Some(Inactive)))),
        ),
        (
            b"\x00\x01\x0b\x75\x54",
            Ok(()),
            (Some(StartOfTrading), Ok((Some(Halted), Some(Active)))),
            (Some(StartOfTrading), Ok((Some(Open), Some(Inactive)))),
        ),
    ];

    #[test]
    fn states_of_stocks(rt: HostRuntime) -> Result<(), Fail> {
        let symbol = Symbol::read(b"2531  ").ok_or("no symbol")?;
        let other = Symbol::read(b"2914  ").ok_or("no symbol")?;
        let mut stocks = [Stock::new(symbol); 2];
        let mut orders = [lent::order(symbol); 1];
        let mut book = Book::new(&mut stocks, &mut orders);
        for (at, (message, answer, first, second)) in STEPS.iter().enumerate() {
            assert!(rt; book.run(message) == *answer, "at step {at}");
            assert!(rt;
                (book.event(), book.states(symbol)) == *first,
                "after step {at}"
            );
            assert!(rt;
                (book.event(), book.states(other)) == *second,
                "after step {at}"
            );
        }
        Ok(())
    }

    #[test]
    fn snapshot_and_refusals(rt: HostRuntime) -> Result<(), Fail> {
        let symbol = Symbol::read(b"2531  ").ok_or("no symbol")?;
        let other = Symbol::read(b"2914  ").ok_or("no symbol")?;
        let mut stocks = [Stock::new(symbol); 1];
        let mut orders = [lent::order(symbol); 2];
        let mut book = Book::new(&mut stocks, &mut orders);
        let steps: [(&[u8], Result<Option<u32>, Cause>); 5] = [
            (b"....H2531  T.", Ok(None)),
            (
                b"\x13\x3d\xfa\xc8\x41\x00\x00\x00\x01\x42\x00\x00\x03\xe8\x32\x35\x33\x31\x20\x20\x00\x00\x00\x00\xb2\xd0\x5e\x00\x59",
                Ok(None),
            ),
            (
                b"\x20\x16\x95\x98\x58\x00\x00\x00\x06\x00\x00\x03\xe8",
                Err(Cause::InSnapshot),
            ),
            (
                b"....A\0\0\0\x02B\0\0\0\x052531  \0\0\0\0\0\0\0\x07Y",
                Ok(None),
            ),
            (b"\x27\x3f\x80\x28\x47\x00\x00\x0e\x66", Ok(Some(3686))),
        ];
        for (at, (message, expected)) in steps.iter().enumerate() {
            assert!(rt; book.run_snapshot(message) == *expected, "at step {at}");
        }
        let mut rows = [lent::row(9); 3];
        assert!(rt; book.orders(other, Side::Buy, &mut rows) == Err(Refusal::NoStock));
        let mut few = [lent::row(9); 1];
        assert!(rt; book.orders(symbol, Side::Buy, &mut few) == Err(Refusal::TooFewRows(2)));
        assert!(rt; few[0].reference == 9);
        assert!(rt; book.orders(symbol, Side::Buy, &mut rows) == Ok(2));
        assert!(rt; (rows[0].reference, rows[1].reference, rows[2].reference) == (1, 2, 9));
        Ok(())
    }
}
