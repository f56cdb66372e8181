// One field of a file.
ghost use Rattle.std.specs.Prelude.{◌≡◌};
ghost use Rattle.fields.specs.Parts.{field_of, part_of, tag_of};

/// A part of a file that holds a field's contents, and the offset of the field's tag.
#[derive(Clone, Copy, PartialEq, Eq, Hash, Debug)]
pub struct Part<'a> {
    pub place: usize,
    pub contents: &'a [u8],
}

/// A field, by its tag: 1 a call, 2 a return, 3 an internal letter, 16 a name of a name list. Any other tag comes with its number.
#[derive(Clone, Copy, PartialEq, Eq, Hash, Debug)]
pub enum Field<'a> {
    Call(Part<'a>),
    Return(Part<'a>),
    Internal(Part<'a>),
    Name(Part<'a>),
    Other(u8, Part<'a>),
}

impl<'a> Field<'a> {
    /// The field with this tag and this part, in the tag's own case if it has one.
    pub fn with_tag(tag: u8, part: Part<'a>) -> Field<'a>
        ensures case { result ≡ field_of tag part.entry }
        ensures tag { tag_of result ≡ tag }
        ensures part { part_of result ≡ part.entry }
    {
        match tag {
            1 => Field::Call(part),
            2 => Field::Return(part),
            3 => Field::Internal(part),
            16 => Field::Name(part),
            _ => Field::Other(tag, part),
        }
    }

    /// The part of the file that holds the contents.
    pub fn part(self) -> Part<'a>
        ensures { result ≡ part_of self.entry }
    {
        match self {
            Field::Call(part)
            | Field::Return(part)
            | Field::Internal(part)
            | Field::Name(part)
            | Field::Other(_, part) => part,
        }
    }
}
