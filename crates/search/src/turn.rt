// Turns.
ghost use Rattle.std.specs.Prelude.{◌≡◌, ◌+◌, ◌<◌, true};
ghost use Rattle.search.specs.Boards.{Fitting, can_go_on};
ghost use Rattle.search.specs.Model.{candidates, turn, turns_done};
ghost use Rattle.search.specs.Worklists.{Enters, Leads, board_of};

use crate::worklist::Worklist;
use nested::machine::Machine;

impl<M: Machine> Worklist<'_, '_, '_, M> {
    // Enters what the rules make of an item and of those before it.
    fn handle(&mut self, number: usize)
        requires there { number < self.old.at.entered }
        ensures { Enters self.old self.new (λ A eq items. candidates A eq items number) }
    {
        self.by_internal(number);
        self.by_pending(number);
        self.by_call(number);
        // the item as the second, then as the first
        self.match_each(number, |other| (other, number));
        self.match_each(number + 1, |other| (number, other));
    }

    // One turn: the next item is handled.
    fn turn(&mut self)
        requires left { self.old.at.turns < self.old.at.entered }
        ensures { Leads self.old self.new (λ A eq b. turn A eq b) }
    {
        let number = self.at.turns;
        self.handle(number);
        self.at.verdict = self.at.after_turn();
        self.at.turns = number + 1;
    }

    // Turns until there were n or the verdict is final. It answers how many there were.
    pub(crate) fn turns(&mut self, n: usize) -> usize
        requires left { can_go_on self.old.at ≡ true }
        ensures done { Leads self.old self.new (λ A eq b. turns_done A eq n b) }
        ensures left { can_go_on self.new.at ≡ true }
        ensures count { self.new.at.turns ≡ self.old.at.turns + result }
    {
        // counts the turns, which are no index; the loop stops early
        for done in 0..n {
            if self.at.verdict.is_final() {
                return done;
            }
            self.turn();
        }
        n
    }
}
