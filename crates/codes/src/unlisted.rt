// A code that is not listed, which is a fault of its field.
ghost use Rattle.std.specs.Prelude.{◌≡◌};
ghost use Rattle.codes.specs.declared.cause.Cause.TheVariants.{Field};

use crate::cause::Cause;

#[derive(Clone, Copy, PartialEq, Eq)]
pub struct Unlisted;

impl From<Unlisted> for Cause {
    ghost from_gives = { λ _ cause. cause ≡ Field };

    fn from(_code: Unlisted) -> Cause {
        Cause::Field
    }
}
