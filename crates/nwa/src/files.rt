// Files that commands name.
use crate::failure::{Failure, ParseError};
use crate::words::Words;
use name_list::list::NameList;
use std::fs;

pub const LIST: &str = "the file of a name list";

const RECORD: &str = "the file of a record";

/// The file of a name list, and that of a record that is read with it.
#[derive(Clone, Copy, PartialEq, Eq, Hash, Debug)]
pub struct Files<'a> {
    list: &'a str,
    record: &'a str,
}

impl<'a> Files<'a> {
    pub fn parse(words: &mut Words<'a>) -> Result<Files<'a>, ParseError> {
        Ok(Files {
            list: words.expect(LIST)?,
            record: words.expect(RECORD)?,
        })
    }

    /// The names, and the record's bytes.
    pub fn open(self, rt: &HostRuntime) -> Result<(NameList, Vec<u8>), Failure<'a>> {
        let names = load_names(self.list, rt)?;
        Ok((names, read_file(self.record, rt)?))
    }
}

fn read_file<'a>(path: &'a str, rt: &HostRuntime) -> Result<Vec<u8>, Failure<'a>> {
    fs::read(rt, path).map_err(|_| Failure::Unreadable(path))
}

/// The name list in a file.
pub fn load_names<'a>(path: &'a str, rt: &HostRuntime) -> Result<NameList, Failure<'a>> {
    let bytes = read_file(path, rt)?;
    let mut names = NameList::new(rt.alloc());
    names.load(&bytes, rt.alloc())?;
    Ok(names)
}
