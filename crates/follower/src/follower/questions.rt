// The lamp, and the questions that the book answers.
ghost use Rattle.std.specs.Prelude.{◌≡◌, length};
ghost use Rattle.following.specs.Calls.{ask as asking, answered};
ghost use Rattle.following.specs.States.{lamp_of};
ghost use Rattle.following.specs.Follower.{outcome};
ghost use Rattle.running.specs.Runners.{book_in};
ghost use Rattle.follower.specs.Model.{model, slots_of, question_of, answer_of, rows_after};
ghost use Rattle.follower.specs.Steps.{replied, rows_replied};

use super::Follower;
use crate::call::{Answer, Question};
use crate::state::State;
use book::BookRow;
use codes::{Lamp, Refusal};
use wire::Symbol;

impl<'a, 'b> Follower<'a, 'b> {
    // What the lamp shows.
    #[tactic(auto, unfolding(following::specs::States::lamp_of))]
    pub(super) fn lamp(&self) -> Lamp
        ensures { result ≡ lamp_of (model self.now) }
    {
        match self.state {
            State::Dark => Lamp::Dark,
            State::Red(stop) => Lamp::Red {
                number: stop.number,
                cause: stop.cause,
            },
            State::Started(started) => started.lamp(),
        }
    }

    // A question, which the book answers while the lamp is green.
    pub(super) fn ask(
        &self,
        question: Question<'_>,
        rows: &mut [BookRow],
    ) -> Result<Answer, Refusal>
        ensures answer { result ≡ answer_of (outcome (slots_of self.now) (model self.now) (asking (question_of question.entry (length rows.old)))) }
        ensures rows { rows.new ≡ rows_after (outcome (slots_of self.now) (model self.now) (asking (question_of question.entry (length rows.old)))) rows.old }
    {
        self.state.started()?;
        match self.lamp() {
            Lamp::Green { .. } => self.read(question, rows),
            lamp => Err(Refusal::NotGreen(lamp)),
        }
    }

    // What the book answers.
    #[tactic(auto, unfolding(following::specs::Calls::answered))]
    fn read(&self, question: Question<'_>, rows: &mut [BookRow]) -> Result<Answer, Refusal>
        ensures answer { result ≡ replied (answered (book_in self.now.runner) (question_of question.entry (length rows.old))) }
        ensures rows { rows.new ≡ rows_replied (answered (book_in self.now.runner) (question_of question.entry (length rows.old))) rows.old }
    {
        match question {
            Question::Event => Ok(Answer::Event(self.runner.book().event())),
            Question::States(symbol) => {
                let symbol = Symbol::read(symbol).ok_or(Refusal::NoStock)?;
                let (trading, short) = self.runner.book().states(symbol)?;
                Ok(Answer::States(trading, short))
            }
            Question::Orders(symbol, side) => {
                let symbol = Symbol::read(symbol).ok_or(Refusal::NoStock)?;
                let count = self.runner.book().orders(symbol, side, rows)?;
                Ok(Answer::Orders(count))
            }
        }
    }
}
