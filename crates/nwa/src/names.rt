// nwa names: the names of a list.
use crate::failure::Failure;
use crate::files::load_names;
use name_list::list::NameList;
use std::str;

/// A name as text; every byte of a name is a character. Without a name there is nothing.
// It is printed as one piece: byte by byte, as by `escape_ascii`, long names took half as long again.
pub fn text_of(names: &NameList, number: usize) -> &str {
    str::from_utf8(names.name(number).unwrap_or(&[])).unwrap_or("")
}

/// `names LIST`: how many names there are, and each with its number.
pub fn answer_names<'a>(list: &'a str, rt: &HostRuntime) -> Result<(), Failure<'a>> {
    let names = load_names(list, rt)?;
    let count = names.len();
    println!(rt; "{count} names")?;
    // over the numbers, since they are printed, and a list gives its names by number
    for number in 0..count {
        let name = text_of(&names, number);
        println!(rt; "{number} {name}")?;
    }
    Ok(())
}
