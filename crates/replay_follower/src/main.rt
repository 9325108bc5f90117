// Reads a script on standard input, a call to a line, and prints what each call answered.
#![tactic(auto)]

mod calls;
mod captures;
mod lent;
mod script;
mod show;
mod sources;
mod words;

use book::Book;
use calls::Calls;
use follower::Follower;
use lent::{Lent, Slots};
use script::Script;
use scripts::{Client, Fault};
use std::io;

// What each line is run with; the client's lines need no follower.
struct Lines<'a> {
    rt: &'a HostRuntime,
    client: Client,
}

fn main(rt: HostRuntime) -> io::Result<()> {
    let mut lines = Lines {
        rt: &rt,
        client: Client::default(),
    };
    let ran = lines.run();
    let Lines { rt, client } = lines;
    let ended = client.end(rt);
    ran.and(ended)
}

impl Lines<'_> {
    // One follower is called by all lines behind the one that lends its slots.
    fn run(&mut self) -> io::Result<()> {
        let mut script = Script::new(self.rt)?;
        let Some(slots) = self.before_slots(&mut script)? else {
            return Ok(());
        };
        let mut lent = Lent::new(self.rt.alloc(), slots)?;
        println!(self.rt; "slots {slots}")?;
        let mut book = Book::new(lent.stocks.as_mut_slice(), lent.orders.as_mut_slice());
        let follower = Follower::new(&mut book, lent.held.as_mut_slice());
        let mut calls = Calls::new(self.rt, follower, lent.rows.as_mut_slice());
        // no proof knows that the input ends
        for _ in 0..u64::MAX {
            let Some(line) = script.next_line()? else {
                break;
            };
            if let Err(fault) = self.with_follower(line, &mut calls) {
                fault.print(self.rt)?;
            }
        }
        Ok(())
    }

    // The lines up to the one that lends the slots, and what that one says.
    fn before_slots(&mut self, script: &mut Script) -> io::Result<Option<Slots>> {
        for _ in 0..u64::MAX {
            let Some(line) = script.next_line()? else {
                break;
            };
            match self.without_follower(line) {
                Ok(None) => {}
                Ok(slots) => return Ok(slots),
                Err(fault) => fault.print(self.rt)?,
            }
        }
        Ok(None)
    }

    // A line where there is no follower, and the slots that it lends.
    fn without_follower(&mut self, line: &[u8]) -> Result<Option<Slots>, Fault> {
        let Some(text) = self.rest(line)? else {
            return Ok(None);
        };
        let words = text.strip_prefix("slots ").ok_or(Fault::BadLine)?;
        let slots = words::slots(words).ok_or(Fault::BadLine)?;
        Ok(Some(slots))
    }

    // A line where there is a follower.
    fn with_follower(&mut self, line: &[u8], calls: &mut Calls<'_, '_>) -> Result<(), Fault> {
        match self.rest(line)? {
            None => Ok(()),
            Some(text) => calls.run(text),
        }
    }

    // A line that needs no follower is run; of any other the text is handed back.
    fn rest<'l>(&mut self, line: &'l [u8]) -> Result<Option<&'l str>, Fault> {
        let Some(text) = self.client.line(self.rt, script::text(line)?)? else {
            return Ok(None);
        };
        let Some(word) = text.strip_prefix("request ") else {
            return Ok(Some(text));
        };
        let bytes = words::bytes(self.rt.alloc(), word)?.ok_or(Fault::BadLine)?;
        scripts::request(self.rt, bytes.as_slice())?;
        Ok(None)
    }
}
