// Why a line of a script fails.
ghost use Rattle.std.specs.Prelude.{◌≡◌, IsErrOf};
ghost use Rattle.std.specs.declared.io.Error.{Error};
ghost use Rattle.scripts.specs.declared.fault.Fault.TheVariants.{Refused, Io};
ghost use Rattle.scripts.specs.Faults.{IsOutOfMemory};

use codes::Refusal;
use std::alloc::{AllocError, AllocFailed};
use std::io;

#[derive(Drop)]
pub enum Fault {
    // the line is none of the script's, or its words are not as they must be
    BadLine,
    Refused(Refusal),
    // no memory is left, or the line's answer cannot be printed
    Io(io::Error),
}

impl Fault {
    // A bad line and a refusal are answers, which are printed; the rest is the program's error.
    pub fn print(self, rt: &impl Print) -> io::Result<()>
        ensures { (error : Error) → self ≡ Io error → IsErrOf result error }
    {
        match self {
            Fault::BadLine => println!(rt; "bad line"),
            Fault::Refused(why) => println!(rt; "refused {why}"),
            Fault::Io(error) => Err(error),
        }
    }
}

impl From<Refusal> for Fault {
    ghost from_gives = { λ r f. f ≡ Refused r };

    fn from(refusal: Refusal) -> Fault {
        Fault::Refused(refusal)
    }
}

impl From<io::Error> for Fault {
    ghost from_gives = { λ e f. f ≡ Io e };

    fn from(error: io::Error) -> Fault {
        Fault::Io(error)
    }
}

impl From<AllocError> for Fault {
    ghost from_gives = { λ _ f. IsOutOfMemory f };

    fn from(error: AllocError) -> Fault {
        Fault::Io(error.into())
    }
}

impl<T: Drop> From<AllocFailed<T>> for Fault {
    ghost from_gives = { λ _ f. IsOutOfMemory f };

    fn from(failed: AllocFailed<T>) -> Fault {
        Fault::Io(failed.into())
    }
}
