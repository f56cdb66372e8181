// Reading a file field by field.
ghost use Rattle.std.specs.Prelude.{◌≡◌, ◌<◌, ◌≤◌, [], length, drop, Some, MatchOption, MatchResult};
ghost use Rattle.fields.specs.Faults.{told};
ghost use Rattle.fields.specs.Fields.{Cut};
ghost use Rattle.fields.specs.Parts.{InFront, Stands};

use crate::fault::{Fault, File};
use crate::field::{Field, Part};

/// The fields of a file, from its start to its end.
#[derive(Drop, Debug)]
pub struct Fields<'a> {
    file: File,
    bytes: &'a [u8],
    place: usize,
    ghost within: { place ≤ length bytes.now },
}

// The field at the front of the bytes and how many bytes it takes, or none where it is cut.
fn front<'a>(left: &'a [u8], place: usize) -> Option<(Field<'a>, usize)>
    requires { 0 < length left.now }
    ensures { MatchOption result (Cut left.now) (λ p. InFront left.now place p.0 p.1) }
{
    let [tag, high, low, behind @ ..] = left else {
        return None;
    };
    let length = usize::from(u16::from_be_bytes([*high, *low]));
    let contents = behind.get(..length)?;
    Some((Field::with_tag(*tag, Part { place, contents }), 3 + length))
}

impl<'a> Fields<'a> {
    /// A reader at the start of a file of this kind.
    pub fn new(file: File, bytes: &'a [u8]) -> Fields<'a>
        ensures file { result.file ≡ file }
        ensures bytes { result.bytes.now ≡ bytes.now }
        ensures place { result.place ≡ 0 }
    {
        Fields {
            file,
            bytes,
            place: 0,
        }
    }

    // It is no `Iterator`: after a cut it answers the cut again, for ever, so no `for` could go over it, and a `while let` would have to
    // transpose each answer.
    /// The next field, none at the file's end, or a fault where the file's end cuts it.
    pub fn next(&mut self) -> Result<Option<Field<'a>>, Fault>
        ensures field { MatchResult result (λ o. MatchOption o ((drop self.old.place self.old.bytes.now ≡ []) × (self.new.place ≡ self.old.place)) (λ f. Stands self.old.bytes.now self.old.place f self.new.place)) (λ e. (told e ≡ Some (record { number = 10; file = self.old.file; place = self.old.place })) × Cut (drop self.old.place self.old.bytes.now) × (self.new.place ≡ self.old.place)) }
        ensures file { self.new.file ≡ self.old.file }
        ensures bytes { self.new.bytes.now ≡ self.old.bytes.now }
    {
        let left = &self.bytes[self.place..];
        if left.is_empty() {
            return Ok(None);
        }
        let cut = Fault::Cut(self.file.at(self.place));
        let (field, used) = front(left, self.place).ok_or(cut)?;
        self.place += used;
        Ok(Some(field))
    }
}
