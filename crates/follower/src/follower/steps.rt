// What an accepted call does.
ghost use Rattle.std.specs.Prelude.{◌≡◌, true};
ghost use Rattle.following.specs.Calls.{stop, packet, snapshot, repair};
ghost use Rattle.following.specs.Follower.{agrees as agreeing, settled as settledAt};
ghost use Rattle.running.specs.Runners.{book_in, held_in, place_in};
ghost use Rattle.running.specs.declared.runner.Runner.{Runner as RunnerOf};
ghost use Rattle.follower.specs.Model.{Comes};
ghost use Rattle.follower.specs.Modelled.{modelled};
ghost use Rattle.follower.specs.Steps.{StartsAtOne, start_of, bounded_by, Opens};

use super::Follower;
use crate::call::Answer;
use crate::state::{Started, State};
use codes::{Lamp, Refusal};
use following::Counts;
use running::{Reached, Wanted};
use session::{Carried, Opened};
use source::{Source, same_session};
use wire::{Packet, Session};

impl<'a, 'b> Follower<'a, 'b> {
    // The empty book, which wants message 1, or no book until a snapshot comes.
    pub(super) fn start(&mut self, wanted: Option<Wanted>) -> Result<Answer, Refusal>
        requires { StartsAtOne wanted }
        ensures { Comes self.old self.new (start_of wanted) result }
    {
        match self.state {
            State::Dark => {
                self.runner.clear();
                self.state = State::Started(Started {
                    session: None,
                    wanted,
                    heard: None,
                });
                Ok(Answer::Done)
            }
            _ => Err(Refusal::NotDark),
        }
    }

    pub(super) fn stop(&mut self) -> Result<Answer, Refusal>
        ensures { Comes self.old self.new stop result }
    {
        match self.state {
            State::Dark => Err(Refusal::Dark),
            _ => {
                self.state = State::Dark;
                Ok(Answer::Done)
            }
        }
    }

    pub(super) fn packet(&mut self, bytes: &[u8]) -> Result<Answer, Refusal>
        ensures { Comes self.old self.new (packet bytes.now) result }
    {
        let started = self.state.started()?;
        match Packet::read(bytes)? {
            Packet::Heartbeat { next, session } => {
                if !agrees(started.session, session) {
                    return Err(Refusal::OtherSession);
                }
                let highest = started.highest().max(next.saturating_sub(1));
                self.state = settled(Some(session), highest, Ok(started.wanted));
                Ok(Answer::Counted(Counts::default()))
            }
            Packet::Data(messages) => {
                let highest = started.highest().max(messages.last_number());
                let (counts, reached) = self.runner.treat_all(Ok(started.wanted), messages);
                self.state = settled(started.session, highest, reached);
                Ok(Answer::Counted(counts))
            }
        }
    }

    pub(super) fn snapshot(&mut self, bytes: &[u8]) -> Result<Answer, Refusal>
        ensures { Comes self.old self.new (snapshot bytes.now) result }
    {
        let started = self.state.started()?;
        if started.wanted.is_some() {
            return Err(Refusal::HasBook);
        }
        let opened = open_snapshot(started.session, bytes)?;
        let next = self.runner.load(Carried::new(opened.messages))?;
        let reached = self.runner.complete(Wanted { number: next });
        let highest = started.highest().max(next.saturating_sub(1));
        self.state = settled(Some(opened.session), highest, reached);
        Ok(Answer::Snapshot(next))
    }

    pub(super) fn repair<S: Source>(
        &mut self,
        source: &mut S,
        budget: u32,
    ) -> Result<Answer, Refusal>
        ensures outcome { Comes self.old self.new (repair (S.meaning source.old) budget) result }
        ensures meaning { S.meaning source.new ≡ S.meaning source.old }
    {
        let started = self.state.started()?;
        let session = source.session();
        if !agrees(started.session, session) {
            return Err(Refusal::OtherSession);
        }
        if let Lamp::Waiting = started.lamp() {
            return Err(Refusal::Waiting);
        }
        let highest = started.highest();
        let repair = self
            .runner
            .mend(Ok(started.wanted), source, highest, budget);
        self.state = settled(Some(session), highest, repair.reached);
        Ok(Answer::Repaired {
            fetched: repair.fetched,
            ending: repair.ending,
        })
    }
}

// A session agrees with the known one, or none is known.
fn agrees(known: Option<Session>, session: Session) -> bool
    ensures { result ≡ agreeing known session }
{
    known.is_none_or(|known| same_session(known, session))
}

// The state where messages have led, with something heard.
#[tactic(auto, unfolding(following::specs::Follower::settled))]
fn settled(session: Option<Session>, highest: u32, reached: Reached) -> State
    requires { bounded_by reached highest ≡ true }
    ensures { (runner : RunnerOf) → modelled result (book_in runner) (held_in runner) ≡ settledAt session highest (place_in runner reached) }
{
    match reached {
        Err(stop) => State::Red(stop),
        Ok(wanted) => State::Started(Started {
            session,
            wanted,
            heard: Some(highest),
        }),
    }
}

// Session bytes that open as a snapshot's, of a session that agrees with the known one.
fn open_snapshot(known: Option<Session>, bytes: &[u8]) -> Result<Opened<'_>, Refusal>
    ensures { Opens known bytes.now result }
{
    let opened = Opened::read(bytes).ok_or(Refusal::NotOpened)?;
    if !matches!(opened.number, 1 | 2) {
        return Err(Refusal::NotOpened);
    }
    if !agrees(known, opened.session) {
        return Err(Refusal::OtherSession);
    }
    Ok(opened)
}
