// A record checked with a machine.
ghost use Rattle.std.specs.Prelude.{◌≡◌, Some};
ghost use Rattle.records.specs.Checking.{Checks};
ghost use Rattle.records.specs.Texts.{unchecked_text};
ghost use Rattle.records.specs.declared.check.Unchecked.TheVariants.{Faulty, Refused};

use crate::read::read_record;
use fields::fault::Fault;
use name_list::list::NameList;
use nested::machine::Machine;
use nested::mark::Mark;
use nested::standing::{Standing, Stop};
use nested::word::follow_word;
use std::error::Error;
use std::fmt;

/// Why a record was not checked: the file has a fault, or a letter of it was refused.
#[derive(Clone, Copy, PartialEq, Eq, Hash, Debug)]
pub enum Unchecked {
    Faulty(Fault),
    Refused(Stop),
}

impl From<Fault> for Unchecked {
    ghost from_gives = { λ fault r. r ≡ Faulty fault };

    fn from(fault: Fault) -> Unchecked {
        Unchecked::Faulty(fault)
    }
}

impl From<Stop> for Unchecked {
    ghost from_gives = { λ stop r. r ≡ Refused stop };

    fn from(stop: Stop) -> Unchecked {
        Unchecked::Refused(stop)
    }
}

impl fmt::Display for Unchecked {
    ghost output = { λ e. Some (unchecked_text e) };

    fn fmt<W: fmt::Write>(&self, f: &mut fmt::Formatter<W>) -> fmt::Result {
        match self {
            Unchecked::Faulty(fault) => write!(f, "{fault}"),
            Unchecked::Refused(stop) => write!(f, "{stop}"),
        }
    }
}

impl Error for Unchecked {}

/// Reads a record with a name list and follows it with a machine, in memory lent by the caller.
///
/// Without a fault and a refusal, the standing accepts exactly if the machine accepts the word that the record spells. The codes of
/// its letters are left in `codes`, and the marks of its calls in `marks`, as `read_record` and `follow_word` leave them.
pub fn check_record<M: Machine>(
    names: &NameList,
    bytes: &[u8],
    machine: &M,
    codes: &mut [u8],
    marks: &mut [Mark<M::State>],
) -> Result<Standing, Unchecked>
    ensures { Checks (M.Machine.meaning machine.now) names.now.names bytes.now codes.old codes.new marks.old marks.new result }
{
    let count = read_record(names, bytes, codes)?;
    Ok(follow_word(machine, &codes[0..count], marks)?)
}
