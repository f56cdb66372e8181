// nwa letters and nwa show: the letters of a record.
use crate::failure::Failure;
use crate::files::Files;
use crate::names::text_of;
use name_list::list::NameList;
use nested::letter::Letter;
use records::read::{MOST_LETTERS, read_record};
use std::alloc::{AllocError, Global};
use std::io;

// A name list and the letters of a record that were read with it.
#[derive(Debug, Drop)]
struct Record {
    names: NameList,
    codes: Vec<u8>,
}

// Reads the two files.
fn load<'a>(files: Files<'a>, rt: &HostRuntime) -> Result<Record, Failure<'a>> {
    let (names, bytes) = files.open(rt)?;
    let mut codes = vec![in rt.alloc(); 0u8; MOST_LETTERS]?;
    let count = read_record(&names, &bytes, &mut codes)?;
    codes.truncate(count);
    Ok(Record { names, codes })
}

/// `letters LIST RECORD`: how many letters there are, and their codes.
pub fn answer_letters<'a>(files: Files<'a>, rt: &HostRuntime) -> Result<(), Failure<'a>> {
    let Record { names: _, codes } = load(files, rt)?;
    let count = codes.len();
    println!(rt; "{count} letters")?;
    if let Some((first, rest)) = codes.split_first() {
        print!(rt; "{first}")?;
        for code in rest {
            print!(rt; " {code}")?;
        }
    }
    println!(rt; "")?;
    Ok(())
}

// The letters with these codes, each with whether it is a call that is never closed: that is told by its place in the word, so the letter
// itself cannot hold it.
fn with_unclosed(codes: &[u8], heap: Global) -> Result<Vec<(Letter, bool)>, AllocError> {
    let mut letters = Vec::new(heap);
    let mut returns = 0u64;
    for letter in codes
        .iter()
        .rev()
        .filter_map(|code| Letter::try_from(*code).ok())
    {
        let unclosed = match letter {
            Letter::Call(_) => {
                let unclosed = returns == 0;
                returns = returns.saturating_sub(1);
                unclosed
            }
            Letter::Return(_) => {
                returns = returns.saturating_add(1);
                false
            }
            Letter::Internal(_) => false,
        };
        letters.push((letter, unclosed))?;
    }
    letters.reverse();
    Ok(letters)
}

// Prints the letters of a word, indented by the calls that are open.
fn print_word(names: &NameList, letters: &[(Letter, bool)], rt: &HostRuntime) -> io::Result<()> {
    let mut depth = 0usize;
    for (letter, unclosed) in letters {
        let open = depth;
        let (kind, name, pending, indent) = match *letter {
            Letter::Call(name) => {
                depth = open.saturating_add(1);
                ("call", name, *unclosed, open)
            }
            Letter::Return(name) => {
                depth = open.saturating_sub(1);
                ("return", name, open == 0, depth)
            }
            Letter::Internal(name) => ("internal", name, false, open),
        };
        let indent = indent.saturating_mul(2);
        let name = text_of(names, usize::from(name));
        let mark = if pending { " (pending)" } else { "" };
        println!(rt; "{:indent$}{kind} {name}{mark}", "")?;
    }
    Ok(())
}

/// `show LIST RECORD`: each letter by its name, indented by the calls that are open, pending calls and returns marked.
pub fn answer_show<'a>(files: Files<'a>, rt: &HostRuntime) -> Result<(), Failure<'a>> {
    let Record { names, codes } = load(files, rt)?;
    let count = codes.len();
    println!(rt; "{count} letters")?;
    print_word(&names, &with_unclosed(&codes, rt.alloc())?, rt)?;
    Ok(())
}
