// The rules by which a turn makes items of one item. Each stops once the verdict is final. `there` stays a clause of each: it speaks of
// another number in each, and a type for such numbers is no plainer, since it would still need a clause that ties it to the worklist.
ghost use Rattle.std.specs.Prelude.{◌<◌};
ghost use Rattle.search.specs.Boards.{Fitting};
ghost use Rattle.search.specs.Model.{by_call, by_internal, by_pending};
ghost use Rattle.search.specs.Worklists.{Enters, board_of};

use crate::worklist::{Candidate, Worklist};
use items::item::{Item, Level};
use items::making::{How, Making};
use nested::letter::Letter;
use nested::machine::Machine;

impl<M: Machine> Worklist<'_, '_, '_, M> {
    // An internal letter behind an item.
    pub(crate) fn by_internal(&mut self, number: usize)
        requires there { number < self.old.at.entered }
        ensures { Enters self.old self.new (λ A eq items. by_internal A eq items number) }
    {
        let question = self.question;
        let from = self.items[number];
        self.enter_each(|name| {
            let present = question.internal(from.present, name);
            Candidate::stepped(number, from, present, Letter::Internal(name))
        });
    }

    // A pending return behind an item of the base level.
    pub(crate) fn by_pending(&mut self, number: usize)
        requires there { number < self.old.at.entered }
        ensures { Enters self.old self.new (λ A eq items. by_pending A eq items number) }
    {
        let question = self.question;
        let from = self.items[number];
        if from.level != Level::Base {
            return;
        }
        self.enter_each(|name| {
            let present = question.pending(from.present, name);
            Candidate::stepped(number, from, present, Letter::Return(name))
        });
    }

    // A call behind an item, into which an inner item begins.
    pub(crate) fn by_call(&mut self, number: usize)
        requires there { number < self.old.at.entered }
        ensures { Enters self.old self.new (λ A eq items. by_call A eq items number) }
    {
        let question = self.question;
        let from = self.items[number];
        self.enter_each(|name| {
            let inside = question.call(from.present, name);
            // no constructor beside `stepped`: one that takes the item and the making would only repeat the struct
            Candidate {
                new: Item {
                    level: Level::Inner,
                    entry: inside,
                    present: inside,
                },
                made: Making {
                    how: How::Entered { from: number, name },
                },
            }
        });
    }
}
