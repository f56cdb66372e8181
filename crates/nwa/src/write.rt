// nwa write: letters, written as a record.
use crate::failure::Failure;
use crate::files::load_names;
use records::read::LONGEST_RECORD;
use records::write::write_record;
use std::fs;

/// `write LIST OUT CODE...`: writes the letters to a file, and answers how many bytes that has.
pub fn answer_write<'a>(
    list: &'a str,
    path: &'a str,
    codes: &[u8],
    rt: &HostRuntime,
) -> Result<(), Failure<'a>> {
    let names = load_names(list, rt)?;
    let mut bytes = vec![in rt.alloc(); 0u8; LONGEST_RECORD]?;
    let count = write_record(&names, codes, &mut bytes)?;
    bytes.truncate(count);
    fs::write(rt, path, bytes.as_slice()).map_err(|_| Failure::Unwritable(path))?;
    println!(rt; "wrote {count} bytes")?;
    Ok(())
}
