// The rule by which a turn makes items of two items: a call, what the second item says of the inside, and a return. It stops once the
// verdict is final. `first`, `second` and `there` stay clauses, as in rules.rt: they speak of other numbers in each method, and a type for
// such numbers is no plainer, since it would still need a clause that ties it to the worklist.
ghost use Rattle.std.specs.Prelude.{◌<◌};
ghost use Rattle.search.specs.Boards.{Fitting};
ghost use Rattle.search.specs.Model.{by_match, by_return, each};
ghost use Rattle.search.specs.Worklists.{Computes, Enters, board_of};

use crate::worklist::{Candidate, Worklist};
use items::item::{Item, Level};
use items::making::{How, Making};
use nested::machine::Machine;

impl<M: Machine> Worklist<'_, '_, '_, M> {
    // A call behind the first item that the second is inside of, and its return behind the second.
    fn by_return(&mut self, first: usize, second: usize, opened: u8)
        requires first { first < self.old.at.entered }
        requires second { second < self.old.at.entered }
        requires name { opened < 16 }
        ensures { Enters self.old self.new (λ A eq items. by_return A eq items first second opened) }
    {
        let question = self.question;
        let before = self.items[first];
        let inside = self.items[second];
        if !question.same(question.call(before.present, opened), inside.entry) {
            return;
        }
        self.enter_each(move |name| Candidate {
            new: Item {
                present: question.ret(inside.present, before.present, opened, name),
                ..before
            },
            made: Making {
                how: How::Matched {
                    first,
                    second,
                    opened,
                    name,
                },
            },
        });
    }

    // What a call and its return make of two items. Its loop and that of `match_each` stay apart from that of `enter_each`: a closure over
    // the worklist itself, in place of one that makes a candidate or a pair, is no plainer, since its contract speaks of every state.
    fn by_match(&mut self, first: usize, second: usize)
        requires first { first < self.old.at.entered }
        requires second { second < self.old.at.entered }
        ensures { Enters self.old self.new (λ A eq items. by_match A eq items first second) }
    {
        let inside = self.items[second];
        if inside.level == Level::Base {
            return;
        }
        // over the names, as in `enter_each`
        for opened in 0..16 {
            if self.at.verdict.is_final() {
                return;
            }
            self.by_return(first, second, opened);
        }
    }

    // What calls and their returns make of each pair in turn.
    pub(crate) fn match_each<F: Fn(usize) -> (usize, usize)>(&mut self, count: usize, pair: F)
        requires callable { F.IsAlwaysCallable pair }
        requires there { (k : _) (p : _) → k < count → F.post pair k p → (p.0 < self.old.at.entered) × (p.1 < self.old.at.entered) }
        ensures { (pairs : _) → Computes count (F.post pair) pairs → Enters self.old self.new (λ A eq items. each 0 count (λ k. by_match A eq items (pairs k).0 (pairs k).1)) }
    {
        // k counts the pairs and is no index; the loop stops early
        for k in 0..count {
            if self.at.verdict.is_final() {
                return;
            }
            let (first, second) = pair(k);
            self.by_match(first, second);
        }
    }
}
