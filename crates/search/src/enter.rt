// Entering items.
ghost use Rattle.std.specs.Prelude.{◌≡◌, [], ◌∷◌, take};
ghost use Rattle.search.specs.Model.{each, enter, listed, same_item};
ghost use Rattle.search.specs.Worklists.{Computes, Enters, Leads, board_of};

use crate::verdict::Verdict;
use crate::worklist::{Candidate, Worklist};
use items::item::Item;
use nested::machine::Machine;

// Whether two items are one.
fn same_item<M: Machine>(question: &M, left: &Item<M::State>, right: &Item<M::State>) -> bool
    ensures { result ≡ same_item (M.meaning question.now) (M.equal question.now) left.now right.now }
{
    left.level == right.level
        && question.same(left.entry, right.entry)
        && question.same(left.present, right.present)
}

impl<M: Machine> Worklist<'_, '_, '_, M> {
    // Whether an item is one of those entered.
    fn is_listed(&self, new: &Item<M::State>) -> bool
        ensures { result ≡ listed (M.meaning self.now.question.now) (M.equal self.now.question.now) (take self.now.at.entered self.now.items.now) new.now }
    {
        let question = self.question;
        self.items[..self.at.entered]
            .iter()
            .any(|item| same_item(question, item, new))
    }

    // Enters a candidate, unless the verdict is final or its item is there already.
    pub(crate) fn enter(&mut self, candidate: Candidate<M::State>)
        ensures { Leads self.old self.new (λ A eq b. enter A eq b candidate) }
    {
        if self.at.verdict.is_final() || self.is_listed(&candidate.new) {
            return;
        }
        let entered = self.at.entered;
        if entered >= self.at.places() {
            self.at.verdict = Verdict::Full;
            return;
        }
        self.items[entered] = candidate.new;
        self.makings[entered] = candidate.made;
        self.at.entered = entered + 1;
        if self.question.accepts(candidate.new.present) {
            self.at.verdict = Verdict::Found;
        }
    }

    // Enters what is made of each name in turn, until the verdict is final.
    pub(crate) fn enter_each<F: Fn(u8) -> Candidate<M::State>>(&mut self, make: F)
        requires callable { F.IsAlwaysCallable make }
        ensures { (made : _) → Computes 16 (F.post make) made → Enters self.old self.new (λ A eq items. each 0 16 (λ name. made name ∷ [])) }
    {
        // over the names, which are no index; the loop stops early
        for name in 0..16 {
            if self.at.verdict.is_final() {
                return;
            }
            self.enter(make(name));
        }
    }
}
