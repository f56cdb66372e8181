// The calls of a search.
ghost use Rattle.std.specs.Prelude.{◌≡◌};
ghost use Rattle.search.specs.Boards.{board};
ghost use Rattle.search.specs.Calls.{Advances, GivesWord, reported};
ghost use Rattle.search.specs.Model.{opened, unopened};
ghost use Rattle.search.specs.Promise.{AdvancesOn, HandsTruly, OpensOn, SaysTruly};

use crate::progress::Progress;
use crate::search::Search;
use crate::unwritten::Unwritten;
use crate::verdict::{Report, Verdict};
use crate::worklist::{Candidate, Worklist};
use items::item::{Item, Level};
use items::making::{How, Making};
use items::words::write_word;
use nested::machine::Machine;
use nested::refusal::Refusal;
use std::marker::PhantomData;

impl<S> Search<S> {
    /// A search that was never opened: it is as one opened with empty rows.
    // no `Default` beside it: that is a second name for this value, and nothing takes a default search
    pub fn new() -> Search<S>
        ensures { result.at ≡ unopened }
    {
        let at = Progress {
            verdict: Verdict::Full,
            turns: 0,
            entered: 0,
            item_row: 0,
            making_row: 0,
        };
        Search {
            at,
            states: PhantomData,
        }
    }

    /// Begins anew, with the rows of this call.
    pub fn open<M: Machine<State = S>>(
        &mut self,
        question: &M,
        items: &mut [Item<S>],
        makings: &mut [Making],
    )
        ensures board { board self.new.at items.new makings.new ≡ opened (M.meaning question.now) (M.equal question.now) items.old makings.old }
        ensures carries { OpensOn (M.meaning question.now) (M.equal question.now) self.old.at (board self.new.at items.new makings.new) }
    {
        let at = Progress {
            verdict: Verdict::Running,
            turns: 0,
            entered: 0,
            item_row: items.len(),
            making_row: makings.len(),
        };
        let mut worklist = Worklist {
            question,
            at,
            items,
            makings,
        };
        let start = question.start();
        worklist.enter(Candidate {
            new: Item {
                level: Level::Base,
                entry: start,
                present: start,
            },
            made: Making { how: How::Begun },
        });
        self.at = worklist.at;
    }

    /// Does turns until there were n or the verdict is final, and answers how many it did.
    ///
    /// The rows are those of the latest opening, as the calls since then left them. Rows of other lengths are refused, and then all is
    /// as it was.
    pub fn advance<M: Machine<State = S>>(
        &mut self,
        question: &M,
        items: &mut [Item<S>],
        makings: &mut [Making],
        n: usize,
    ) -> Result<usize, Refusal>
        ensures board { Advances (board self.old.at items.old makings.old) (M.meaning question.now) (M.equal question.now) n (board self.new.at items.new makings.new) result }
        ensures carries { AdvancesOn (M.meaning question.now) (M.equal question.now) (board self.old.at items.old makings.old) n (board self.new.at items.new makings.new) result }
    {
        // `word` asks this too: each has its own error for it, and a shared check would only hand that over
        if !self.at.fits_rows(items.len(), makings.len()) {
            return Err(Refusal::RowLength);
        }
        let mut worklist = Worklist {
            question,
            at: self.at,
            items,
            makings,
        };
        let done = worklist.turns(n);
        self.at = worklist.at;
        Ok(done)
    }

    /// The verdict, the turns done since opening, and the items entered.
    pub fn verdict(&self) -> Report
        ensures report { result ≡ reported self.now.at }
        ensures promise { SaysTruly S self.now.at result.verdict }
    {
        Report {
            verdict: self.at.verdict,
            turns: self.at.turns,
            items: self.at.entered,
        }
    }

    /// Writes the codes of the word that was found to the front of a buffer, and answers how many there are.
    ///
    /// Refused, in this order: rows of other lengths than at opening; a verdict other than found; a word that is longer than 1,024
    /// letters or than the buffer. A refused call leaves the buffer as it was.
    pub fn word<M: Machine<State = S>>(
        &self,
        question: &M,
        items: &[Item<S>],
        makings: &[Making],
        out: &mut [u8],
    ) -> Result<usize, Unwritten>
        ensures answer { GivesWord (board self.now.at items.now makings.now) out.old out.new result }
        ensures promise { HandsTruly (board self.now.at items.now makings.now) out.old out.new result }
    {
        if !self.at.fits_rows(items.len(), makings.len()) {
            return Err(Unwritten::RowLength);
        }
        if self.at.verdict != Verdict::Found {
            return Err(Unwritten::NotFound);
        }
        Ok(write_word(makings, self.at.entered.saturating_sub(1), out)?)
    }
}
