// What following a record comes to.
ghost use Rattle.std.specs.Prelude.{Some};
ghost use Rattle.nested.specs.Texts.{standing_text, stop_text};

use crate::refusal::Refusal;
use std::error::Error;
use std::fmt;

/// Whether the letters read so far are accepted, and how many of their calls are open.
#[derive(Clone, Copy, PartialEq, Eq, Hash, Debug)]
pub struct Standing {
    pub accepts: bool,
    pub open: usize,
}

/// Where following a list of letters stopped: the index of the first letter that was refused, and why.
#[derive(Clone, Copy, PartialEq, Eq, Hash, Debug)]
pub struct Stop {
    pub letter: usize,
    pub refusal: Refusal,
}

impl fmt::Display for Standing {
    ghost output = { λ s. Some (standing_text s) };

    fn fmt<W: fmt::Write>(&self, f: &mut fmt::Formatter<W>) -> fmt::Result {
        if !self.accepts {
            write!(f, "not ")?;
        }
        write!(f, "accepted, {} open", self.open)
    }
}

impl fmt::Display for Stop {
    ghost output = { λ s. Some (stop_text s) };

    fn fmt<W: fmt::Write>(&self, f: &mut fmt::Formatter<W>) -> fmt::Result {
        write!(
            f,
            "refused {} at letter {}",
            self.refusal.number(),
            self.letter
        )
    }
}

impl Error for Stop {}
