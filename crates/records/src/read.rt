// Reading a record.
ghost use Rattle.std.specs.Prelude.{◌≡◌, ◌-◌, ◌*◌, ◌≤◌, true, false, length, take, IfOk, MatchOption};
ghost use Rattle.fields.specs.Outcomes.{OneOutcome};
ghost use Rattle.fields.specs.Parts.{field_of, part_of, piece_of, tag_of};
ghost use Rattle.nested.specs.Letters.{code_of};
ghost use Rattle.records.specs.Reading.{Named, Spells, letter_tag};
ghost use Rattle.records.specs.Records.{Reads, RecordRead, WritesBack, record_format, spelled};

use fields::fault::{Fault, File};
use fields::field::{Field, Part};
use fields::reader::Fields;
use name_list::list::NameList;
use name_list::name::{has_name_bytes, has_name_length};
use nested::letter::Letter;

/// The most bytes that a record has.
pub const LONGEST_RECORD: usize = 65535;

/// No record has more letters, since each takes at least 4 bytes.
pub const MOST_LETTERS: usize = LONGEST_RECORD / 4;

// The number of the name that a letter's field holds, or what is wrong with the contents.
fn name_number(names: &NameList, part: Part) -> Result<u8, Fault>
    ensures { Named names.now.names part.entry.contents.now part.entry.place result }
{
    let at = File::Record.at(part.place);
    if !has_name_length(part.contents) {
        return Err(Fault::Length(at));
    }
    if !has_name_bytes(part.contents) {
        return Err(Fault::Byte(at));
    }
    let number = names.find(part.contents).ok_or(Fault::Unlisted(at))?;
    Ok(number as u8)
}

// The letter of the kind that a field spells, by its tag, with name number 0.
fn kind(field: Field) -> Option<Letter>
    requires { field ≡ field_of (tag_of field) (part_of field) }
    ensures { MatchOption result (letter_tag (tag_of field.entry) ≡ false) (λ l. (letter_tag (tag_of field.entry) ≡ true) × (code_of l ≡ (tag_of field.entry - 1) * 16)) }
{
    match field {
        Field::Call(_) => Some(Letter::Call(0)),
        Field::Return(_) => Some(Letter::Return(0)),
        Field::Internal(_) => Some(Letter::Internal(0)),
        Field::Name(_) => None,
        Field::Other(_, _) => None,
    }
}

// The code of the letter that a field spells, or what is wrong with the field. The name number is added to the code of the kind's first
// letter: with a letter made in an arm for each kind, reading a record took a third longer.
fn letter_code(names: &NameList, field: Field) -> Result<u8, Fault>
    requires { field ≡ field_of (tag_of field) (part_of field) }
    ensures { Spells names.now.names (piece_of field.entry) (part_of field.entry).place result }
{
    let part = field.part();
    let first = kind(field).ok_or(Fault::Tag(File::Record.at(part.place)))?;
    let number = name_number(names, part)?;
    Ok(u8::from(first) + number)
}

// Reads a record that is not too long. The count is the answer and the place of the next code, so an iterator over `codes` would be
// one thing more beside it. The room is tested and the code written by its index: with `get_mut` the proof does not close, since std
// says nothing of what a slice is after a write through it.
fn read_fields(names: &NameList, bytes: &[u8], codes: &mut [u8]) -> Result<usize, Fault>
    ensures { Reads names.now.names bytes.now codes.old codes.new result }
{
    let mut fields = Fields::new(File::Record, bytes);
    let mut count = 0;
    while let Some(field) = fields.next()? {
        let code = letter_code(names, field)?;
        if count >= codes.len() {
            return Err(Fault::NoRoom(File::Record.at(field.part().place)));
        }
        codes[count] = code;
        count += 1;
    }
    Ok(count)
}

/// Reads a record: writes the codes of its letters into `codes`, and answers how many there are. The rest of `codes` is left.
///
/// A record of more than 65,535 bytes is refused before anything is read. Otherwise each field in turn is refused, in this order, if
/// it is cut by the end, if its tag is not that of a letter, if its contents are not as long as a name, hold a byte that no name has,
/// or are not listed, or if `codes` has no room for its letter. The letters before a refused field stand in `codes`.
pub fn read_record(names: &NameList, bytes: &[u8], codes: &mut [u8]) -> Result<usize, Fault>
    ensures reads { RecordRead names.now.names bytes.now codes.old codes.new result }
    ensures within { IfOk result (λ n. n ≤ length codes.new) }
    ensures only { OneOutcome (record_format names.now.names (length codes.old)) bytes.now }
    ensures spells { IfOk result (λ n. bytes.now ≡ spelled names.now.names (take n codes.new)) }
    ensures writes_back { IfOk result (λ n. WritesBack names.now.names bytes.now (take n codes.new)) }
{
    if bytes.len() > LONGEST_RECORD {
        return Err(Fault::TooLong(File::Record.at(0)));
    }
    read_fields(names, bytes, codes)
}
