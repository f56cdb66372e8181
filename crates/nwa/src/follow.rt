// nwa follow: a list of letters, followed with a machine.
use crate::failure::Failure;
use crate::shape::{Made, Shape, Task};
use nested::machine::Machine;
use nested::row::{MOST_PLACES, mark_row};
use nested::word::follow_word;

/// `follow MACHINE CODE...`: whether the letters are accepted.
pub fn answer_follow<'a>(
    machine: Shape,
    codes: &[u8],
    rt: &HostRuntime,
) -> Result<(), Failure<'a>> {
    machine.with(Following { rt, codes })
}

// Follows the letters with a machine, and prints what comes of it.
struct Following<'a> {
    rt: &'a HostRuntime,
    codes: &'a [u8],
}

impl<'f> Task<Result<(), Failure<'f>>> for Following<'_> {
    fn run<M: Machine + Drop>(self, machine: M) -> Result<(), Failure<'f>> {
        let Following { rt, codes } = self;
        let mut marks = mark_row(&machine, MOST_PLACES, rt.alloc())?;
        let standing = follow_word(&machine, codes, &mut marks)?;
        println!(rt; "{standing}")?;
        Ok(())
    }
}
