// How much the screen may be trusted.
ghost use Rattle.std.specs.Prelude.{Some};
ghost use Rattle.codes.specs.Texts.{lamp_text};

use crate::cause::Cause;
use std::fmt;

#[derive(Clone, Copy, PartialEq, Eq)]
pub enum Lamp {
    Dark,
    // the message of that number stopped the book
    Red { number: u32, cause: Cause },
    // no book, or nothing heard
    Waiting,
    // the numbers from `wanted` to `heard` are not all there
    Gap { wanted: u32, heard: u32 },
    // the book is the venue's own, up to the message before `wanted`
    Green { wanted: u32 },
}

impl fmt::Display for Lamp {
    ghost output = { λ lamp. Some (lamp_text lamp) };

    fn fmt<W: fmt::Write>(&self, f: &mut fmt::Formatter<W>) -> fmt::Result {
        match *self {
            Lamp::Dark => write!(f, "dark"),
            Lamp::Red { number, cause } => write!(f, "red {number} {cause}"),
            Lamp::Waiting => write!(f, "waiting"),
            Lamp::Gap { wanted, heard } => write!(f, "gap {wanted} {heard}"),
            Lamp::Green { wanted } => write!(f, "green {wanted}"),
        }
    }
}
