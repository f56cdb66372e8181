// Lists of calls, performed one after the other.
ghost use Rattle.std.specs.Prelude.{◌≡◌, Some, IfOk};
ghost use Rattle.search.specs.Law.{Law, at_first};
ghost use Rattle.search.specs.Performing.{AdvancesWith, Answered, GivesWordWith, brings, kept_board};

use crate::call::{Answer, Call, Rows};
use crate::search::Search;
use crate::unwritten::Unwritten;
use nested::machine::Machine;
use nested::refusal::Refusal;
use std::alloc::{AllocError, Global};

// A search, and the rows that are kept for it between calls: those of the latest opening, as the search left them.
#[derive(Debug, Drop)]
struct Kept<S> {
    search: Search<S>,
    rows: Rows<S>,
}

impl<S> Kept<S> {
    // Whether other rows have the lengths at opening.
    fn fits(&self, other: &Rows<S>) -> bool
        ensures { result ≡ brings (kept_board self.now) (Some other.now) }
    {
        self.search
            .at
            .fits_rows(other.items.len(), other.makings.len())
    }

    // Advances: with other rows, where they have not the lengths at opening; else with those that are kept. The rows are not picked first, as
    // `word` does: that is a `&mut` to one of two places, and the proof does not close, since the borrow checker does not cover the join.
    fn advance<M: Machine<State = S>>(
        &mut self,
        question: &M,
        n: usize,
        other: Option<Rows<S>>,
    ) -> Result<usize, Refusal>
        ensures { AdvancesWith (kept_board self.old) (M.meaning question.now) (M.equal question.now) n other (kept_board self.new) result }
    {
        match other {
            Some(mut other) if !self.fits(&other) => {
                self.search
                    .advance(question, &mut other.items, &mut other.makings, n)
            }
            _ => self
                .search
                .advance(question, &mut self.rows.items, &mut self.rows.makings, n),
        }
    }

    // Asks for the word: of other rows, where they have not the lengths at opening; else of those that are kept.
    fn word<M: Machine<State = S>>(
        &self,
        question: &M,
        out: &mut [u8],
        other: Option<Rows<S>>,
    ) -> Result<usize, Unwritten>
        ensures { GivesWordWith (kept_board self.now) other out.old out.new result }
    {
        let rows = match &other {
            Some(other) if !self.fits(other) => other,
            _ => &self.rows,
        };
        self.search.word(question, &rows.items, &rows.makings, out)
    }

    // Performs one call, and answers it.
    fn answer<M: Machine<State = S>>(&mut self, question: &M, call: Call<S>) -> Answer
        ensures { Answered (kept_board self.old) (M.meaning question.now) (M.equal question.now) call result (kept_board self.new) }
    {
        match call {
            Call::Open(new) => {
                self.rows = new;
                self.search
                    .open(question, &mut self.rows.items, &mut self.rows.makings);
                Answer::Opened(self.search.at.places())
            }
            Call::Advance(n, other) => Answer::Advanced(self.advance(question, n, other)),
            Call::Verdict => Answer::Said(self.search.verdict()),
            Call::Word(mut out, other) => {
                let word = self.word(question, &mut out, other);
                Answer::Handed(word, out)
            }
        }
    }
}

/// Performs a list of calls from a new search, and gives all their answers. Once it has begun, nothing fails for want of memory.
pub(crate) fn perform<M: Machine>(
    question: &M,
    calls: Vec<Call<M::State>>,
    heap: Global,
) -> Result<Vec<Answer>, AllocError>
    ensures { IfOk result (λ answers. Law (M.meaning question.now) at_first calls.items answers.items) }
{
    let mut answers = Vec::with_capacity(heap, calls.len())?;
    let mut kept = Kept {
        search: Search::new(),
        rows: Rows {
            items: Vec::new(heap),
            makings: Vec::new(heap),
        },
    };
    for call in calls {
        answers.push_reserved(kept.answer(question, call));
    }
    Ok(answers)
}
