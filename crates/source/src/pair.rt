// Two sources as one.
ghost use Rattle.std.specs.Prelude.{◌≡◌};
ghost use Rattle.source.specs.Pairs.{same_session, paired};

use crate::source::{MessageBuffer, Source};
use wire::Session;

/// Any two sources: what the first holds and, where it lacks a number and the sessions are the same, what the second
/// holds.
#[derive(Drop)]
pub struct Pair<F, S> {
    first: F,
    second: S,
}

impl<F, S> Pair<F, S> {
    pub fn new(first: F, second: S) -> Pair<F, S>
        ensures first { result.first ≡ first }
        ensures second { result.second ≡ second }
    {
        Pair { first, second }
    }
}

/// Whether two sessions have the same name.
pub fn same_session(a: Session, b: Session) -> bool
    ensures { result ≡ same_session a b }
{
    a == b
}

impl<F: Source, S: Source> Source for Pair<F, S> {
    ghost meaning = { λ p. paired (F.Source.meaning p.first) (S.Source.meaning p.second) };

    fn session(&self) -> Session {
        self.first.session()
    }

    // The second is not asked where the first has the number, nor where the sessions differ. Not by `or_else`, which says
    // nothing of what its closure writes to `out`.
    fn fetch(&mut self, number: u32, out: &mut MessageBuffer) -> Option<usize> {
        if let Some(length) = self.first.fetch(number, out) {
            return Some(length);
        }
        if same_session(self.session(), self.second.session()) {
            self.second.fetch(number, out)
        } else {
            None
        }
    }
}
