// Writing a record.
ghost use Rattle.std.specs.Prelude.{◌≡◌, ◌+◌, ◌≤◌, length, OnOk};
ghost use Rattle.nested.specs.Letters.{letter_of, name_of};
ghost use Rattle.records.specs.Records.{ReadsBack, Writes};
ghost use Rattle.records.specs.Writing.{LetterWritten, head_bytes, piece, tag_in, with_field};

use crate::read::LONGEST_RECORD;
use fields::fault::{Fault, File};
use name_list::list::NameList;
use nested::letter::Letter;

// The bytes of a field in front of its contents: its tag, and its length with the high byte first.
fn field_head(tag: u8, length: usize) -> [u8; 3]
    requires { length ≤ 65535 }
    ensures { result ≡ head_bytes tag length }
{
    let [high, low] = (length as u16).to_be_bytes();
    [tag, high, low]
}

// Writes a field at the front of a buffer that has room for it.
fn put_field(out: &mut [u8], tag: u8, contents: &[u8])
    requires room { 3 + length contents.now ≤ length out.old }
    requires short { length contents.now ≤ 65535 }
    ensures { out.new ≡ with_field out.old 0 (piece tag contents.now) }
{
    out[..3].copy_from_slice(&field_head(tag, contents.len()));
    out[3..3 + contents.len()].copy_from_slice(contents);
}

// The tag of the field of the letter with this code, and the number of its name.
fn tag_and_number(code: u8) -> (u8, u8)
    requires { code ≤ 47 }
    ensures tag { result.0 ≡ tag_in (letter_of code) }
    ensures number { result.1 ≡ name_of (letter_of code) }
{
    (1 + code / 16, code % 16)
}

// Writes the letter with this index at the front of what is left of the buffer, and answers how many bytes it has, or what is wrong
// with it.
fn put_letter(names: &NameList, index: usize, code: u8, left: &mut [u8]) -> Result<usize, Fault>
    requires { length left.old ≤ 65535 }
    ensures { LetterWritten names.now.names index code 0 left.old left.new result }
{
    let at = File::Record.at(index);
    // The letter is not matched on: no processor foresees its kind, and writing a record took nearly half as long again.
    Letter::try_from(code).map_err(|_| Fault::NotALetter(at))?;
    let (tag, number) = tag_and_number(code);
    let name = names.name(usize::from(number)).ok_or(Fault::Unlisted(at))?;
    let length = 3 + name.len();
    if length > left.len() {
        return Err(Fault::NoRoom(at));
    }
    put_field(left, tag, name);
    Ok(length)
}

/// Writes letters as a record at the front of a buffer, and answers how many bytes it has.
///
/// It stops at the first letter that cannot be written. The fault has the letter's index for its place, and is the first of these:
/// `NotALetter`, its code is above 47; `Unlisted`, no name has its number; `NoRoom`, its field does not fit in the buffer, or the
/// record would have more than 65,535 bytes. The bytes of the letters before it then stand in the buffer. The rest of the buffer is
/// as it was in either case.
pub fn write_record(names: &NameList, codes: &[u8], out: &mut [u8]) -> Result<usize, Fault>
    ensures writes { Writes names.now.names codes.now out.old out.new result }
    ensures reads_back { OnOk result (ReadsBack names.now.names codes.now) }
{
    let room = out.len().min(LONGEST_RECORD);
    // A loop, since the closure of a `try_fold` would write to `out`, and a proof then knows nothing of what the chain comes to.
    let mut used = 0;
    for (index, code) in codes.iter().enumerate() {
        used += put_letter(names, index, *code, &mut out[used..room])?;
    }
    Ok(used)
}
