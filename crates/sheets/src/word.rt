// Following a whole word with a sheet.
ghost use Rattle.std.specs.Prelude.{◌≡◌, length, take, MatchResult};
ghost use Rattle.nested.specs.Following.{letters_read, marks_written, Stopped};
ghost use Rattle.nested.specs.Letters.{letters};
ghost use Rattle.nested.specs.Reading.{begun};
ghost use Rattle.sheets.specs.Following.{ReadByRuns};
ghost use Rattle.sheets.specs.Sheets.{described};
ghost use Rattle.sheets.specs.Steps.{sheet_automaton};

use crate::sheet::Sheet;
use crate::state::SheetState;
use nested::mark::Mark;
use nested::standing::{Standing, Stop};
use nested::word::follow_word;

/// Follows a list of letter codes with a sheet, as `follow_word` does with any machine.
///
/// Where every letter is read, the standing accepts exactly if some run of the sheet's automaton on the word ends in an accepting
/// state: a run begins in a start state with an empty stack of marks, takes one move for each letter, and may end with any stack.
pub fn follow_sheet(
    sheet: &Sheet,
    codes: &[u8],
    marks: &mut [Mark<SheetState>],
) -> Result<Standing, Stop>
    ensures answer { MatchResult result (ReadByRuns (described sheet.now) (length marks.old) codes.now) (Stopped (length marks.old) codes.now) }
    ensures marks { marks.new ≡ marks_written (sheet_automaton (described sheet.now)) (begun (sheet_automaton (described sheet.now))) (letters (take (letters_read codes.now result) codes.now)) marks.old }
{
    follow_word(sheet, codes, marks)
}
