// Why a search gives no word.
ghost use Rattle.std.specs.Prelude.{◌≡◌, Some};
ghost use Rattle.search.specs.Texts.{unwritten_text};
ghost use Rattle.search.specs.declared.unwritten.Unwritten.TheVariants.{TooLong};

use items::words::TooLong;
use std::error::Error;
use std::fmt;

/// Why a search wrote no word.
#[derive(Clone, Copy, PartialEq, Eq, Hash, Debug)]
pub enum Unwritten {
    /// A row is not as long as the one at opening.
    RowLength,
    /// The verdict is not found.
    NotFound,
    /// The word is longer than 1,024 letters or than the buffer.
    TooLong(TooLong),
}

impl From<TooLong> for Unwritten {
    ghost from_gives = { λ error why. why ≡ TooLong error };

    fn from(error: TooLong) -> Unwritten {
        Unwritten::TooLong(error)
    }
}

impl fmt::Display for Unwritten {
    ghost output = { λ why. Some (unwritten_text why) };

    fn fmt<W: fmt::Write>(&self, f: &mut fmt::Formatter<W>) -> fmt::Result {
        match self {
            Unwritten::RowLength => f.write_str("a row is not as long as at opening"),
            Unwritten::NotFound => f.write_str("no word was found"),
            Unwritten::TooLong(long) => write!(f, "{long}"),
        }
    }
}

impl Error for Unwritten {}
