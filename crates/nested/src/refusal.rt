// Why a letter is not followed.
ghost use Rattle.std.specs.Prelude.{◌≡◌, Some};
ghost use Rattle.nested.specs.Following.{number};
ghost use Rattle.nested.specs.Texts.{refusal_text};
ghost use Rattle.nested.specs.declared.refusal.Refusal.TheVariants.{NotALetter};

use crate::letter::NotALetter;
use std::error::Error;
use std::fmt;

/// Why a follower refused a letter.
#[derive(Clone, Copy, PartialEq, Eq, Hash, Debug)]
pub enum Refusal {
    /// The code is above 47.
    NotALetter,
    /// The letter is a call, and every mark place is taken.
    MarksFull,
    /// The row of mark places is not as long as the one at begin.
    RowLength,
}

impl Refusal {
    /// The number under which this refusal is listed.
    // A method, not a `From`: the number is a fact about the refusal, which does not stand for it.
    pub fn number(self) -> u8
        ensures { result ≡ number self }
    {
        match self {
            Refusal::NotALetter => 1,
            Refusal::MarksFull => 2,
            Refusal::RowLength => 3,
        }
    }
}

impl From<NotALetter> for Refusal {
    ghost from_gives = { λ _ r. r ≡ NotALetter };

    fn from(_error: NotALetter) -> Refusal {
        Refusal::NotALetter
    }
}

impl fmt::Display for Refusal {
    ghost output = { λ r. Some (refusal_text r) };

    fn fmt<W: fmt::Write>(&self, f: &mut fmt::Formatter<W>) -> fmt::Result {
        f.write_str(match self {
            Refusal::NotALetter => "the code is above 47",
            Refusal::MarksFull => "every mark place is taken",
            Refusal::RowLength => "the row of mark places is not as long as at begin",
        })
    }
}

impl Error for Refusal {}
