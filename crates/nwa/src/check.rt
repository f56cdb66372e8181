// nwa check: a record, followed with a machine.
use crate::failure::Failure;
use crate::files::Files;
use crate::shape::{Made, Shape, Task};
use name_list::list::NameList;
use nested::machine::Machine;
use nested::row::{MOST_PLACES, mark_row};
use records::check::check_record;
use records::read::MOST_LETTERS;

/// `check LIST RECORD MACHINE`: whether the record's word is accepted.
pub fn answer_check<'a>(
    files: Files<'a>,
    machine: Shape,
    rt: &HostRuntime,
) -> Result<(), Failure<'a>> {
    let (names, bytes) = files.open(rt)?;
    machine.with(Check {
        rt,
        names: &names,
        bytes: &bytes,
    })
}

// Checks a record with a machine, and prints what comes of it.
struct Check<'a> {
    rt: &'a HostRuntime,
    names: &'a NameList,
    bytes: &'a [u8],
}

impl<'f> Task<Result<(), Failure<'f>>> for Check<'_> {
    fn run<M: Machine + Drop>(self, machine: M) -> Result<(), Failure<'f>> {
        let Check { rt, names, bytes } = self;
        let mut codes = vec![in rt.alloc(); 0u8; MOST_LETTERS]?;
        let mut marks = mark_row(&machine, MOST_PLACES, rt.alloc())?;
        let standing = check_record(names, bytes, &machine, &mut codes, &mut marks)?;
        println!(rt; "{standing}")?;
        Ok(())
    }
}
