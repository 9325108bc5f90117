// The calls of a follower.
ghost use Rattle.std.specs.Prelude.{◌≡◌, length};
ghost use Rattle.book.specs.Books.{slots};
ghost use Rattle.following.specs.States.{dark};
ghost use Rattle.follower.specs.Law.{Kept};
ghost use Rattle.follower.specs.Model.{model, slots_of, call_of, out_of, CameOut, rows_after};

use super::Follower;
use crate::call::{Answer, Call};
use crate::state::State;
use book::{Book, BookRow};
use codes::Refusal;
use running::{HeldRow, Runner, Wanted};
use source::Source;

impl<'a, 'b> Follower<'a, 'b> {
    /// A new follower is dark. Its book is the one lent, emptied; messages are held in the lent slots.
    #[tactic(auto, unfolding(following::specs::Days::after))]
    pub fn new(book: &'a mut Book<'b>, held: &'a mut [HeldRow]) -> Follower<'a, 'b>
        ensures dark { model result ≡ dark }
        ensures slots { slots_of result ≡ record { for_book = slots book.old; for_held = length held.old } }
    {
        Follower {
            runner: Runner::new(book, held),
            state: State::Dark,
        }
    }

    /// One call. It comes out as on the plain follower, in its answer or refusal, in the state after it and in the lent
    /// rows; and it keeps the promise.
    pub fn call<S: Source>(
        &mut self,
        call: &mut Call<'_, S>,
        rows: &mut [BookRow],
    ) -> Result<Answer, Refusal>
        ensures outcome { CameOut self.old self.new (out_of S.Source.meaning self.old call.old rows.old) result }
        ensures rows { rows.new ≡ rows_after (out_of S.Source.meaning self.old call.old rows.old) rows.old }
        ensures stays { call_of S.Source.meaning call.new (length rows.old) ≡ call_of S.Source.meaning call.old (length rows.old) }
        ensures law { Kept (slots_of self.old) (call_of S.Source.meaning call.old (length rows.old)) (record { before = model self.old; behind = model self.new; answer = result; rows = rows.old; rows_behind = rows.new }) }
    {
        self.dispatch(call, rows)
    }

    // By the call.
    fn dispatch<S: Source>(
        &mut self,
        call: &mut Call<'_, S>,
        rows: &mut [BookRow],
    ) -> Result<Answer, Refusal>
        ensures outcome { CameOut self.old self.new (out_of S.Source.meaning self.old call.old rows.old) result }
        ensures rows { rows.new ≡ rows_after (out_of S.Source.meaning self.old call.old rows.old) rows.old }
        ensures stays { call_of S.Source.meaning call.new (length rows.old) ≡ call_of S.Source.meaning call.old (length rows.old) }
    {
        match call {
            Call::StartAtOne => self.start(Some(Wanted { number: 1 })),
            Call::StartBySnapshot => self.start(None),
            Call::Stop => self.stop(),
            Call::Packet(bytes) => self.packet(bytes),
            Call::Snapshot(bytes) => self.snapshot(bytes),
            Call::Repair(source, budget) => self.repair(&mut **source, *budget),
            Call::Lamp => Ok(Answer::Lamp(self.lamp())),
            Call::Ask(question) => self.ask(*question, rows),
        }
    }
}
