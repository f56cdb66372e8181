// A record checked with a sheet.
ghost use Rattle.sheets.specs.Sheets.{described};
ghost use Rattle.sheet_records.specs.Checking.{ChecksByRuns};

use name_list::list::NameList;
use nested::mark::Mark;
use nested::standing::Standing;
use records::check::{Unchecked, check_record};
use sheets::sheet::Sheet;
use sheets::state::SheetState;

/// Reads a record with a name list and follows it with a sheet, as `check_record` does with any machine.
///
/// Without a fault and a refusal, the standing accepts exactly if some run of the sheet's automaton on the word that the record spells
/// ends in an accepting state.
#[tactic(auto, using(crate::proofs::Runs::checks_by_runs))]
pub fn check_with_sheet(
    names: &NameList,
    bytes: &[u8],
    sheet: &Sheet,
    codes: &mut [u8],
    marks: &mut [Mark<SheetState>],
) -> Result<Standing, Unchecked>
    ensures { ChecksByRuns (described sheet.now) names.now.names bytes.now codes.old codes.new marks.old marks.new result }
{
    check_record(names, bytes, sheet, codes, marks)
}
