// Calls on one new follower, in turn.
use book::{Book, BookRow, Stock};
use codes::{EventCode, Lamp, Refusal, Side, Trading};
use follower::{Answer, Call, Follower, Question};
use following::Ending;
use recovery::Recovery;
use running::HeldRow;
use std::process::Abort;
use std::test::Fail;
use wire::{OrderRow, Symbol};

// A call as a constant can hold it: a `Call` borrows its source, and a step has the bytes of one.
#[derive(Clone, Copy)]
pub enum Step<'a> {
    StartAtOne,
    StartBySnapshot,
    Stop,
    Packet(&'a [u8]),
    Snapshot(&'a [u8]),
    // from a recovery session, with a budget
    Repair(&'a [u8], u32),
    Lamp,
    // each question is a step of its own, so that a turn fits a line
    Event,
    States(&'a [u8]),
    // into one lent row
    Orders(&'a [u8], Side),
}

// What an accepted step is told: of an answer only what the turns name.
#[derive(Clone, Copy, PartialEq, Eq)]
pub enum Said {
    Done,
    // so many messages of a packet were taken
    Taken(u16),
    // the number that a snapshot's End told
    Next(u32),
    // so many messages were fetched
    Repaired(u32, Ending),
    Lamp(Lamp),
    Event(Option<EventCode>),
    // the trading state
    Trading(Option<Trading>),
    // so many rows
    Orders(usize),
}

impl From<Answer> for Said {
    fn from(answer: Answer) -> Said {
        match answer {
            Answer::Done => Said::Done,
            Answer::Counted(counts) => Said::Taken(counts.taken),
            Answer::Snapshot(next) => Said::Next(next),
            Answer::Repaired { fetched, ending } => Said::Repaired(fetched, ending),
            Answer::Lamp(lamp) => Said::Lamp(lamp),
            Answer::Event(code) => Said::Event(code),
            Answer::States(trading, _) => Said::Trading(trading),
            Answer::Orders(rows) => Said::Orders(rows),
        }
    }
}

// What a step is told, or its refusal.
pub type Told = Result<Said, Refusal>;

// A step, what it is told, and the lamp after it.
pub type Turn<'a> = (Step<'a>, Told, Lamp);

fn call(
    follower: &mut Follower<'_, '_>,
    call: &mut Call<'_, Recovery<'_>>,
) -> Result<Answer, Refusal> {
    let mut rows = [BookRow {
        reference: 0,
        shares: 0,
        price: 0,
    }; 1];
    follower.call(call, &mut rows)
}

fn make(follower: &mut Follower<'_, '_>, step: Step<'_>) -> Result<Answer, Refusal> {
    match step {
        Step::StartAtOne => call(follower, &mut Call::StartAtOne),
        Step::StartBySnapshot => call(follower, &mut Call::StartBySnapshot),
        Step::Stop => call(follower, &mut Call::Stop),
        Step::Packet(bytes) => call(follower, &mut Call::Packet(bytes)),
        Step::Snapshot(bytes) => call(follower, &mut Call::Snapshot(bytes)),
        Step::Repair(bytes, budget) => {
            let mut source = Recovery::open(bytes)?;
            call(follower, &mut Call::Repair(&mut source, budget))
        }
        Step::Lamp => call(follower, &mut Call::Lamp),
        Step::Event => call(follower, &mut Call::Ask(Question::Event)),
        Step::States(symbol) => call(follower, &mut Call::Ask(Question::States(symbol))),
        Step::Orders(symbol, side) => call(
            follower,
            &mut Call::Ask(Question::Orders(symbol, side)),
        ),
    }
}

fn tell(follower: &mut Follower<'_, '_>, step: Step<'_>) -> Told {
    make(follower, step).map(Said::from)
}

// Takes turns on a new follower with slots for one stock, two orders and three held messages.
pub fn walk(rt: &impl Abort, first: &[Turn<'_>], then: &[Turn<'_>]) -> Result<(), Fail> {
    let symbol = Symbol::read(b"2531  ").ok_or("no symbol")?;
    let mut stocks = [Stock::new(symbol); 1];
    let mut orders = [OrderRow {
        reference: 0,
        side: Side::Buy,
        shares: 0,
        symbol,
        price: 0,
    }; 2];
    let mut held = [HeldRow::EMPTY; 3];
    let mut book = Book::new(&mut stocks, &mut orders);
    let mut follower = Follower::new(&mut book, &mut held);
    for (at, (step, told, lamp)) in first.iter().chain(then).enumerate() {
        assert!(rt; tell(&mut follower, *step) == *told, "at turn {at}");
        assert!(rt;
            tell(&mut follower, Step::Lamp) == Ok(Said::Lamp(*lamp)),
            "after turn {at}"
        );
    }
    Ok(())
}
