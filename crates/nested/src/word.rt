// Following a whole word.
ghost use Rattle.std.specs.Prelude.{◌≡◌, length, take, MatchResult};
ghost use Rattle.nested.specs.Letters.{letters};
ghost use Rattle.nested.specs.Reading.{begun};
ghost use Rattle.nested.specs.Following.{letters_read, marks_written, ReadWhole, Stopped};

use crate::follower::Follower;
use crate::machine::Machine;
use crate::mark::Mark;
use crate::standing::{Standing, Stop};

/// Follows a list of letter codes with a machine, from the first letter on, with the marks in a row lent by the caller.
///
/// Where every letter is read, the standing accepts exactly if the machine accepts the word, and its open calls are the calls of the
/// word that are never closed. Otherwise it answers the first letter that is refused, and why; the letters before it were read.
#[tactic(auto, using(crate::proofs::Words::refused_here))]
pub fn follow_word<M: Machine>(
    machine: &M,
    codes: &[u8],
    marks: &mut [Mark<M::State>],
) -> Result<Standing, Stop>
    ensures answer { MatchResult result (ReadWhole (M.Machine.meaning machine.now) (length marks.old) codes.now) (Stopped (length marks.old) codes.now) }
    ensures marks { marks.new ≡ marks_written (M.Machine.meaning machine.now) (begun (M.Machine.meaning machine.now)) (letters (take (letters_read codes.now result) codes.now)) marks.old }
{
    let mut follower = Follower::begin(machine, marks);
    for (letter, code) in codes.iter().enumerate() {
        follower
            .follow(*code, marks)
            .map_err(|refusal| Stop { letter, refusal })?;
    }
    Ok(follower.standing())
}
