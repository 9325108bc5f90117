// The lines that call the follower.
use crate::captures::{Packets, Sums};
use crate::sources::AnySource;
use crate::{show, words};
use book::BookRow;
use codes::Side;
use follower::{Call, Follower, Question};
use scripts::Fault;
use scripts::words::field;
use source::{Pair, Source};
use std::fs;

// A follower, and the rows that are lent for its answers.
#[derive(Drop)]
pub(crate) struct Calls<'a, 'b> {
    rt: &'b HostRuntime,
    follower: Follower<'a, 'b>,
    rows: &'a mut [BookRow],
}

// A call that brings no source of its own.
type Plain<'c> = Call<'c, AnySource<'c>>;

impl<'a, 'b> Calls<'a, 'b> {
    pub(crate) fn new(
        rt: &'b HostRuntime,
        follower: Follower<'a, 'b>,
        rows: &'a mut [BookRow],
    ) -> Calls<'a, 'b> {
        Calls { rt, follower, rows }
    }

    // A line: its call is made, and what it answered is printed.
    pub(crate) fn run(&mut self, line: &str) -> Result<(), Fault> {
        match line {
            "start one" => self.call(&mut Plain::StartAtOne),
            "start snapshot" => self.call(&mut Plain::StartBySnapshot),
            "stop" => self.call(&mut Plain::Stop),
            "lamp" => self.call(&mut Plain::Lamp),
            "event" => self.call(&mut Plain::Ask(Question::Event)),
            _ => self.with_words(line),
        }
    }

    fn with_words(&mut self, line: &str) -> Result<(), Fault> {
        let (first, words) = line.split_once(' ').ok_or(Fault::BadLine)?;
        let heap = self.rt.alloc();
        match first {
            "packet" => {
                let bytes = words::bytes(heap, words)?.ok_or(Fault::BadLine)?;
                self.call(&mut Plain::Packet(bytes.as_slice()))
            }
            "snapshot" => {
                let bytes = words::bytes(heap, words)?.ok_or(Fault::BadLine)?;
                self.call(&mut Plain::Snapshot(bytes.as_slice()))
            }
            "stock" => {
                let symbol = words::symbol(heap, words)?.ok_or(Fault::BadLine)?;
                self.call(&mut Plain::Ask(Question::States(&symbol)))
            }
            "capture" => self.capture(words),
            "orders" => self.orders(words),
            "repair" => self.repair(words),
            _ => Err(Fault::BadLine),
        }
    }

    // `capture PATH` hands each packet of the file to the follower.
    fn capture(&mut self, path: &str) -> Result<(), Fault> {
        let Ok(file) = fs::read(self.rt, path) else {
            println!(self.rt; "no file")?;
            return Ok(());
        };
        let mut sums = Sums::default();
        for packet in Packets(file.as_slice()) {
            sums.add(self.follower.call(&mut Plain::Packet(packet), self.rows));
        }
        println!(self.rt; "{sums}")?;
        Ok(())
    }

    // `orders SYMBOL SIDE`
    fn orders(&mut self, words: &str) -> Result<(), Fault> {
        let (symbol, side) = words.split_once(' ').ok_or(Fault::BadLine)?;
        let [code] = side.as_bytes() else {
            return Err(Fault::BadLine);
        };
        let side = Side::try_from(*code).map_err(|_| Fault::BadLine)?;
        let symbol = words::symbol(self.rt.alloc(), symbol)?.ok_or(Fault::BadLine)?;
        self.call(&mut Plain::Ask(Question::Orders(&symbol, side)))
    }

    // `repair BUDGET SOURCE..` repairs from one source, a pair, or a pair of a pair and a third.
    fn repair(&mut self, words: &str) -> Result<(), Fault> {
        let (budget, named) = words.split_once(' ').ok_or(Fault::BadLine)?;
        let budget = field(budget).ok_or(Fault::BadLine)?;
        let stored = words::sources(self.rt.alloc(), named)?;
        // an arm for each number of sources, since each pair is of another type
        match stored.as_slice() {
            [one] => self.mend(one.open()?, budget),
            [one, two] => self.mend(Pair::new(one.open()?, two.open()?), budget),
            [one, two, three] => {
                let pair = Pair::new(one.open()?, two.open()?);
                self.mend(Pair::new(pair, three.open()?), budget)
            }
            _ => Err(Fault::BadLine),
        }
    }

    fn mend<S: Source + Drop>(&mut self, mut source: S, budget: u32) -> Result<(), Fault> {
        self.call(&mut Call::Repair(&mut source, budget))
    }

    fn call<S: Source + Drop>(&mut self, call: &mut Call<'_, S>) -> Result<(), Fault> {
        let done = match call {
            Call::Stop => "stopped",
            _ => "started",
        };
        let answer = self.follower.call(call, self.rows)?;
        show::answer(self.rt, answer, done, self.rows)?;
        Ok(())
    }
}
