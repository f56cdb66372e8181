// A letter of a nested word, and its code.
ghost use Rattle.std.specs.Prelude.{Some};
ghost use Rattle.nested.specs.Letters.{IsCodeOf, ReadsCode};
ghost use Rattle.nested.specs.Texts.{not_a_letter_text};

use std::error::Error;
use std::fmt;

/// A letter: its kind, and the number of its name. A name number above 15 counts as its remainder by 16.
///
/// A return closes the latest call still open, its partner. A return with no open call is pending, and so is a call that is never
/// closed.
#[derive(Clone, Copy, Debug, PartialEq, Eq, Hash)]
pub enum Letter {
    Call(u8),
    Return(u8),
    Internal(u8),
}

/// A code above 47, which is no letter.
#[derive(Clone, Copy, Debug, PartialEq, Eq, Hash)]
pub struct NotALetter(pub u8);

/// The letter with this code: 0 to 15 are calls, 16 to 31 returns, 32 to 47 internal letters; a code above 47 is no letter.
impl TryFrom<u8> for Letter {
    type Error = NotALetter;

    ghost try_from_gives = { ReadsCode };

    fn try_from(code: u8) -> Result<Letter, NotALetter> {
        match code {
            0..16 => Ok(Letter::Call(code)),
            16..32 => Ok(Letter::Return(code - 16)),
            32..48 => Ok(Letter::Internal(code - 32)),
            _ => Err(NotALetter(code)),
        }
    }
}

/// The code of this letter, from 0 to 47.
impl From<Letter> for u8 {
    ghost from_gives = { IsCodeOf };

    fn from(letter: Letter) -> u8 {
        match letter {
            Letter::Call(name) => name % 16,
            Letter::Return(name) => 16 + name % 16,
            Letter::Internal(name) => 32 + name % 16,
        }
    }
}

impl fmt::Display for NotALetter {
    ghost output = { λ e. Some (not_a_letter_text e) };

    fn fmt<W: fmt::Write>(&self, f: &mut fmt::Formatter<W>) -> fmt::Result {
        write!(f, "no letter has the code {}", self.0)
    }
}

impl Error for NotALetter {}
