// Orders that come, change and leave.
#[cfg(test)]
mod tests {
    use crate::lent;
    use book::{Book, BookRow, Stock};
    use codes::{Cause, Refusal, Side};
    use std::process::Abort;
    use std::test::Fail;
    use wire::Symbol;

    // The orders of a side, or why there are none.
    type Rows<'a> = Result<&'a [BookRow], Refusal>;

    // A message, its answer, and then the orders to buy and to sell of 2531.
    type Step<'a> = (&'a [u8], Result<(), Cause>, Rows<'a>, Rows<'a>);

    // Runs the steps on one book with slots for two stocks and three orders.
    fn walk(rt: &impl Abort, steps: &[Step<'_>]) -> Result<(), Fail> {
        let symbol = Symbol::read(b"2531  ").ok_or("no symbol")?;
        let mut stocks = [Stock::new(symbol); 2];
        let mut orders = [lent::order(symbol); 3];
        let mut book = Book::new(&mut stocks, &mut orders);
        for (at, (message, answer, buys, sells)) in steps.iter().enumerate() {
            assert!(rt; book.run(message) == *answer, "at step {at}");
            for (side, expected) in [(Side::Buy, buys), (Side::Sell, sells)] {
                let mut lent = [lent::row(0); 3];
                let answer = book.orders(symbol, side, &mut lent);
                // the rows behind the orders stay as they were lent
                let (told, rest) = lent
                    .split_at_checked(answer.unwrap_or(0))
                    .ok_or("more rows than are lent")?;
                assert!(rt;
                    rest.iter().all(|row| *row == lent::row(0)),
                    "a row too many after step {at}"
                );
                assert!(rt; answer.map(|_| told) == *expected, "after step {at}");
            }
        }
        Ok(())
    }

    const TRADING: &[u8] = b"\x00\x39\x53\xc8\x48\x32\x35\x33\x31\x20\x20\x54\x4e";

    const NONE: Rows<'_> = Ok(&[]);

    const SIX_ADDED: BookRow = BookRow {
        reference: 6,
        shares: 1000,
        price: 3_000_000_000,
    };

    const SIX_REVISED: BookRow = BookRow {
        reference: 6,
        shares: 1000,
        price: 3_010_000_000,
    };

    const SIX_REDUCED: BookRow = BookRow {
        reference: 6,
        shares: 900,
        price: 3_010_000_000,
    };

    const SEVEN: BookRow = BookRow {
        reference: 7,
        shares: 1000,
        price: 3_000_000_000,
    };

    const EIGHT: BookRow = BookRow {
        reference: 8,
        shares: 1000,
        price: 3_010_000_000,
    };

    const REVISED_AND_REDUCED: [Step<'_>; 9] = [
        (TRADING, Ok(()), NONE, NONE),
        // the price is revised: a cancel, and an add under the same reference
        (
            b"\x20\x05\x01\x98\x41\x00\x00\x00\x06\x42\x00\x00\x03\xe8\x32\x35\x33\x31\x20\x20\x00\x00\x00\x00\xb2\xd0\x5e\x00\x59",
            Ok(()),
            Ok(&[SIX_ADDED]),
            NONE,
        ),
        (
            b"\x20\x16\x95\x98\x58\x00\x00\x00\x06\x00\x00\x03\xe8",
            Ok(()),
            NONE,
            NONE,
        ),
        (
            b"\x20\x16\x95\x98\x41\x00\x00\x00\x06\x42\x00\x00\x03\xe8\x32\x35\x33\x31\x20\x20\x00\x00\x00\x00\xb3\x68\xf4\x80\x59",
            Ok(()),
            Ok(&[SIX_REVISED]),
            NONE,
        ),
        // the shares are reduced
        (
            b"\x14\x20\xbd\x90\x58\x00\x00\x00\x06\x00\x00\x00\x64",
            Ok(()),
            Ok(&[SIX_REDUCED]),
            NONE,
        ),
        // an order to sell is revised, and trades with one to buy
        (
            b"\x24\x52\x95\x80\x41\x00\x00\x00\x07\x42\x00\x00\x03\xe8\x32\x35\x33\x31\x20\x20\x00\x00\x00\x00\xb2\xd0\x5e\x00\x59",
            Ok(()),
            Ok(&[SIX_REDUCED, SEVEN]),
            NONE,
        ),
        (
            b"\x35\x04\xe8\x10\x41\x00\x00\x00\x08\x53\x00\x00\x03\xe8\x32\x35\x33\x31\x20\x20\x00\x00\x00\x00\xb3\x68\xf4\x80\x59",
            Ok(()),
            Ok(&[SIX_REDUCED, SEVEN]),
            Ok(&[EIGHT]),
        ),
        (
            b"\x13\x2d\x31\xe8\x58\x00\x00\x00\x08\x00\x00\x03\xe8",
            Ok(()),
            Ok(&[SIX_REDUCED, SEVEN]),
            NONE,
        ),
        (
            b"\x13\x2d\x31\xe8\x45\x00\x00\x00\x07\x00\x00\x03\xe8\x08\x58\x3b\x04\x00\x00\x00\x08\x44",
            Ok(()),
            Ok(&[SIX_REDUCED]),
            NONE,
        ),
    ];

    #[test]
    fn revised_and_reduced(rt: HostRuntime) -> Result<(), Fail> {
        walk(&rt, &REVISED_AND_REDUCED)
    }

    const NINE: BookRow = BookRow {
        reference: 9,
        shares: 1000,
        price: 3_010_000_000,
    };

    const NINE_TRADED: BookRow = BookRow {
        reference: 9,
        shares: 500,
        price: 3_010_000_000,
    };

    const PEAK: BookRow = BookRow {
        reference: 12,
        shares: 1000,
        price: 3_010_000_000,
    };

    const THIRTEEN: BookRow = BookRow {
        reference: 13,
        shares: 1000,
        price: 3_010_000_000,
    };

    const ICEBERG_AND_BUST: [Step<'_>; 9] = [
        (TRADING, Ok(()), NONE, NONE),
        (
            b"\x1b\x47\xfa\x70\x41\x00\x00\x00\x09\x42\x00\x00\x03\xe8\x32\x35\x33\x31\x20\x20\x00\x00\x00\x00\xb3\x68\xf4\x80\x59",
            Ok(()),
            Ok(&[NINE]),
            NONE,
        ),
        (
            b"\x0a\x2c\x9d\x40\x45\x00\x00\x00\x09\x00\x00\x01\xf4\x08\x58\x3b\x05\x00\x00\x00\x0a\x2b",
            Ok(()),
            Ok(&[NINE_TRADED]),
            NONE,
        ),
        (
            b"\x06\xc9\x13\x68\x45\x00\x00\x00\x09\x00\x00\x01\xf4\x08\x58\x3b\x06\x00\x00\x00\x0b\x55",
            Ok(()),
            NONE,
            NONE,
        ),
        // the trade of the hidden shares changes nothing, and the peak is refreshed
        (
            b"\x06\xc9\x13\x68\x50\x00\x00\x00\x00\x42\x00\x00\x0d\xac\x32\x35\x33\x31\x20\x20\x00\x00\x00\x00\xb3\x68\xf4\x80\x08\x58\x3b\x06\x00\x00\x00\x00",
            Ok(()),
            NONE,
            NONE,
        ),
        (
            b"\x06\xc9\x13\x68\x41\x00\x00\x00\x0c\x42\x00\x00\x03\xe8\x32\x35\x33\x31\x20\x20\x00\x00\x00\x00\xb3\x68\xf4\x80\x59",
            Ok(()),
            Ok(&[PEAK]),
            NONE,
        ),
        // an order is added and traded, and the trade is broken, which changes nothing
        (
            b"\x30\x7c\xe3\x38\x41\x00\x00\x00\x0d\x42\x00\x00\x03\xe8\x32\x35\x33\x31\x20\x20\x00\x00\x00\x00\xb3\x68\xf4\x80\x59",
            Ok(()),
            Ok(&[PEAK, THIRTEEN]),
            NONE,
        ),
        (
            b"\x0a\xcf\x5d\x50\x45\x00\x00\x00\x0d\x00\x00\x03\xe8\x08\x58\x3b\x07\x00\x00\x00\x0e\x55",
            Ok(()),
            Ok(&[PEAK]),
            NONE,
        ),
        (
            b"\x19\x4f\x6a\x78\x42\x08\x58\x3b\x07",
            Ok(()),
            Ok(&[PEAK]),
            NONE,
        ),
    ];

    #[test]
    fn iceberg_and_bust(rt: HostRuntime) -> Result<(), Fail> {
        walk(&rt, &ICEBERG_AND_BUST)
    }

    const ONE: BookRow = BookRow {
        reference: 1,
        shares: 5,
        price: 7,
    };

    const TWO: BookRow = BookRow {
        reference: 2,
        shares: 5,
        price: 7,
    };

    const THREE: BookRow = BookRow {
        reference: 3,
        shares: 5,
        price: 7,
    };

    const FIRST_CAUSE_STOPS: [Step<'_>; 10] = [
        // no stock yet
        (
            b"....A\0\0\0\x02B\0\0\0\x052531  \0\0\0\0\0\0\0\x07Y",
            Err(Cause::NoStock),
            Err(Refusal::NoStock),
            Err(Refusal::NoStock),
        ),
        (TRADING, Ok(()), NONE, NONE),
        (
            b"....A\0\0\0\x02B\0\0\0\x052531  \0\0\0\0\0\0\0\x07Y",
            Ok(()),
            Ok(&[TWO]),
            NONE,
        ),
        // a live reference comes before an unknown symbol
        (
            b"....A\0\0\0\x02B\0\0\0\x059999  \0\0\0\0\0\0\0\x07Y",
            Err(Cause::LiveReference),
            Ok(&[TWO]),
            NONE,
        ),
        (
            b"....X\0\0\0\x01\0\0\0\x05",
            Err(Cause::NoOrder),
            Ok(&[TWO]),
            NONE,
        ),
        (
            b"....X\0\0\0\x02\0\0\0\x06",
            Err(Cause::TooManyShares),
            Ok(&[TWO]),
            NONE,
        ),
        (
            b"....A\0\0\0\x01B\0\0\0\x052531  \0\0\0\0\0\0\0\x07Y",
            Ok(()),
            Ok(&[ONE, TWO]),
            NONE,
        ),
        (
            b"....A\0\0\0\x03B\0\0\0\x052531  \0\0\0\0\0\0\0\x07Y",
            Ok(()),
            Ok(&[ONE, TWO, THREE]),
            NONE,
        ),
        (
            b"....A\0\0\0\x04B\0\0\0\x052531  \0\0\0\0\0\0\0\x07Y",
            Err(Cause::TableFull),
            Ok(&[ONE, TWO, THREE]),
            NONE,
        ),
        (
            b"....X\0\0\0\x02\0\0\0\x05.",
            Err(Cause::Length),
            Ok(&[ONE, TWO, THREE]),
            NONE,
        ),
    ];

    #[test]
    fn first_cause_stops(rt: HostRuntime) -> Result<(), Fail> {
        walk(&rt, &FIRST_CAUSE_STOPS)
    }
}
