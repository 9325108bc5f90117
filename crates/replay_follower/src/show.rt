// What a call answered, as it is printed.
use book::BookRow;
use follower::Answer;
use std::{fmt, io};

// A code that was told, or none.
#[derive(Drop)]
struct Told<T>(Option<T>);

impl<T: fmt::Display> fmt::Display for Told<T> {
    fn fmt<W: fmt::Write>(&self, f: &mut fmt::Formatter<W>) -> fmt::Result {
        match &self.0 {
            Some(code) => write!(f, "{code}"),
            None => write!(f, "none"),
        }
    }
}

// An answer, with `done` for one that says nothing else.
pub(crate) fn answer(
    rt: &HostRuntime,
    answer: Answer,
    done: &str,
    rows: &[BookRow],
) -> io::Result<()> {
    match answer {
        Answer::Done => println!(rt; "{done}"),
        Answer::Counted(counts) => println!(rt; "{counts}"),
        Answer::Snapshot(next) => println!(rt; "snapshot {next}"),
        Answer::Repaired { fetched, ending } => println!(rt; "fetched {fetched} {ending}"),
        Answer::Lamp(lamp) => println!(rt; "{lamp}"),
        Answer::Event(code) => println!(rt; "event {}", Told(code)),
        Answer::States(trading, short) => {
            println!(rt; "trading {} short {}", Told(trading), Told(short))
        }
        Answer::Orders(count) => orders(rt, count, rows),
    }
}

// So many rows, a line to each.
fn orders(rt: &HostRuntime, count: usize, rows: &[BookRow]) -> io::Result<()> {
    println!(rt; "orders {count}")?;
    for row in rows.iter().take(count) {
        println!(rt; "{} {} {}", row.reference, row.shares, row.price)?;
    }
    Ok(())
}
