// The sources of a repair.
ghost use Rattle.std.specs.Prelude.{◌≡◌};
ghost use Rattle.wire.specs.Answers.{through};
ghost use Rattle.replay_follower.specs.Sources.{meaning_of, source_of};

use codes::Refusal;
use dayfile::DayFile;
use recovery::Recovery;
use scripts::Fault;
use source::{MessageBuffer, Source};
use std::str::FromStr;
use wire::Session;

#[derive(Clone, Copy)]
pub(crate) enum Kind {
    Session,
    File,
}

// The bytes of a source, and the kind that they are read as. `source_of` takes the two one by one, so they are no enum.
#[derive(Drop)]
pub(crate) struct Stored {
    pub(crate) kind: Kind,
    pub(crate) bytes: Vec<u8>,
}

// A recovery session or a day file.
#[derive(Drop)]
pub(crate) enum AnySource<'a> {
    Session(Recovery<'a>),
    File(DayFile<'a>),
}

impl FromStr for Kind {
    type Err = Fault;

    fn from_str(word: &str) -> Result<Kind, Fault> {
        match word {
            "session" => Ok(Kind::Session),
            "file" => Ok(Kind::File),
            _ => Err(Fault::BadLine),
        }
    }
}

impl Stored {
    pub(crate) fn open(&self) -> Result<AnySource<'_>, Refusal>
        ensures { through meaning_of result ≡ source_of self.now.kind self.now.bytes.items }
    {
        let bytes = self.bytes.as_slice();
        match self.kind {
            Kind::Session => Recovery::open(bytes).map(AnySource::Session),
            Kind::File => DayFile::open(bytes).map(AnySource::File),
        }
    }
}

impl<'a> Source for AnySource<'a> {
    ghost meaning = { meaning_of };

    fn session(&self) -> Session {
        match self {
            AnySource::Session(session) => session.session(),
            AnySource::File(file) => file.session(),
        }
    }

    fn fetch(&mut self, number: u32, out: &mut MessageBuffer) -> Option<usize> {
        match self {
            AnySource::Session(session) => session.fetch(number, out),
            AnySource::File(file) => file.fetch(number, out),
        }
    }
}
