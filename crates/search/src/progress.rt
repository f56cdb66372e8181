// How far a search has come.
ghost use Rattle.std.specs.Prelude.{◌≡◌, ◌<◌};
ghost use Rattle.search.specs.Calls.{rows_fit};
ghost use Rattle.search.specs.Model.{after_turn, places};

use crate::verdict::Verdict;

/// How far a search has come: the verdict, the turns done since opening, the items entered, and the lengths of the rows at opening, which
/// stay here because the caller lends the rows to each call anew.
#[derive(Clone, Copy, PartialEq, Eq, Hash, Debug)]
pub struct Progress {
    pub verdict: Verdict,
    pub turns: usize,
    pub entered: usize,
    pub item_row: usize,
    pub making_row: usize,
}

// The most items that a search enters.
const MOST_ITEMS: usize = 4096;

impl Progress {
    // How many items can be entered.
    pub(crate) fn places(self) -> usize
        ensures { result ≡ places self }
    {
        self.item_row.min(self.making_row).min(MOST_ITEMS)
    }

    // The verdict after a turn whose items are entered.
    pub(crate) fn after_turn(self) -> Verdict
        requires { self.turns < self.entered }
        ensures { result ≡ after_turn self }
    {
        if self.verdict == Verdict::Running && self.turns + 1 == self.entered {
            Verdict::None
        } else {
            self.verdict
        }
    }

    // Whether rows of these lengths are as long as those at opening.
    pub(crate) fn fits_rows(self, items: usize, makings: usize) -> bool
        ensures { result ≡ rows_fit self items makings }
    {
        items == self.item_row && makings == self.making_row
    }
}
