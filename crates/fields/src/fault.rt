// What can be wrong with a file.
ghost use Rattle.std.specs.Prelude.{◌≡◌, Some};
ghost use Rattle.fields.specs.Faults.{told};
ghost use Rattle.fields.specs.Texts.{fault_line, fault_text, file_text};
ghost use Rattle.fields.specs.declared.fault.Fault.TheVariants.{Memory};

use std::alloc::AllocError;
use std::error::Error;
use std::fmt;

/// The kinds of files.
#[derive(Clone, Copy, PartialEq, Eq, Hash, Debug)]
pub enum File {
    Names,
    Record,
}

impl fmt::Display for File {
    ghost output = { λ f. Some (file_text f) };

    fn fmt<W: fmt::Write>(&self, f: &mut fmt::Formatter<W>) -> fmt::Result {
        f.write_str(match self {
            File::Names => "names",
            File::Record => "record",
        })
    }
}

/// Where a fault is: its file, and the offset in it of the field that has the fault. The place of a fault of a list of letters to
/// be written is the letter's index.
#[derive(Clone, Copy, PartialEq, Eq, Hash, Debug)]
pub struct At {
    pub file: File,
    pub place: usize,
}

impl File {
    /// This place of a file of this kind.
    pub fn at(self, place: usize) -> At
        ensures { result ≡ record { file = self; place = place } }
    {
        At { file: self, place }
    }
}

/// What is wrong with a file, or with a list of letters to be written to one.
#[derive(Clone, Copy, PartialEq, Eq, Hash, Debug)]
pub enum Fault {
    /// A letter code is above 47.
    NotALetter(At),
    /// A field is cut by the file's end.
    Cut(At),
    /// The tag is not allowed at this point.
    Tag(At),
    /// The length is wrong for the tag.
    Length(At),
    /// A byte is not allowed in a name.
    Byte(At),
    /// The file ends with a needed field missing.
    Missing(At),
    /// The name is listed twice.
    Repeated(At),
    /// There is a 17th name.
    TooMany(At),
    /// The name is not listed, or there is no name for the number.
    Unlisted(At),
    /// The file is too long.
    TooLong(At),
    /// The buffer is too short, or the written record would be too long.
    NoRoom(At),
    /// There was no memory.
    Memory,
}

// The number is no kind of fault of its own: it is the one under which the fault is listed, as every answer is.
/// What a fault tells: its number, the file that it is in, and its place there.
#[derive(Clone, Copy, PartialEq, Eq, Hash, Debug)]
pub struct Told {
    pub number: u8,
    pub file: File,
    pub place: usize,
}

impl Fault {
    /// The fault's number, file and place; none where there was no memory.
    pub fn told(self) -> Option<Told>
        ensures { result ≡ told self }
    {
        let (number, At { file, place }) = match self {
            Fault::NotALetter(at) => (1, at),
            Fault::Cut(at) => (10, at),
            Fault::Tag(at) => (11, at),
            Fault::Length(at) => (12, at),
            Fault::Byte(at) => (13, at),
            Fault::Missing(at) => (16, at),
            Fault::Repeated(at) => (17, at),
            Fault::TooMany(at) => (18, at),
            Fault::Unlisted(at) => (19, at),
            Fault::TooLong(at) => (20, at),
            Fault::NoRoom(at) => (21, at),
            Fault::Memory => return None,
        };
        Some(Told {
            number,
            file,
            place,
        })
    }

    // What is wrong, in words.
    fn text(self) -> &'static str
        ensures { result.now ≡ fault_text self }
    {
        match self {
            Fault::NotALetter(_) => "the letter code is above 47",
            Fault::Cut(_) => "the field is cut by the file's end",
            Fault::Tag(_) => "the tag is not allowed here",
            Fault::Length(_) => "the length is wrong for the tag",
            Fault::Byte(_) => "a byte is not allowed in a name",
            Fault::Missing(_) => "the file ends with a needed field missing",
            Fault::Repeated(_) => "the name is listed twice",
            Fault::TooMany(_) => "there is a 17th name",
            Fault::Unlisted(_) => "the name is not listed, or there is no name for the number",
            Fault::TooLong(_) => "the file is too long",
            Fault::NoRoom(_) => "the buffer is too short, or the record would be too long",
            Fault::Memory => "there is no memory",
        }
    }
}

/// The line that a program says of a fault.
impl fmt::Display for Fault {
    ghost output = { λ e. Some (fault_line e) };

    fn fmt<W: fmt::Write>(&self, f: &mut fmt::Formatter<W>) -> fmt::Result {
        let text = self.text();
        match self.told() {
            Some(
                Told {
                    number,
                    file,
                    place,
                },
            ) => write!(f, "refused {number}, {file} at {place}: {text}"),
            None => write!(f, "error: {text}"),
        }
    }
}

impl Error for Fault {}

// Of every error that `AllocError` is made from; those of std say that there was no memory.
impl<E: Drop> From<E> for Fault
where
    AllocError: From<E>,
{
    ghost from_gives = { λ _ r. r ≡ Memory };

    fn from(_error: E) -> Fault {
        Fault::Memory
    }
}
