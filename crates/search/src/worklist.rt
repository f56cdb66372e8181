// The worklist of a search, and what may be entered in it. Its methods are in other files, since their contracts speak of the struct.
ghost use Rattle.std.specs.Prelude.{◌≡◌};
ghost use Rattle.items.specs.Items.{item};
ghost use Rattle.items.specs.declared.making.How.TheVariants.{Stepped};
ghost use Rattle.search.specs.Boards.{Fitting, board};
ghost use Rattle.search.specs.Model.{candidate};

use crate::progress::Progress;
use items::item::Item;
use items::making::{How, Making};
use nested::letter::Letter;
use nested::machine::Machine;

// An item that may be entered, and how it is made.
#[derive(Clone, Copy, Debug, PartialEq, Eq)]
pub(crate) struct Candidate<S> {
    pub(crate) new: Item<S>,
    pub(crate) made: Making,
}

impl<S: Copy> Candidate<S> {
    // What a letter behind an item makes of it: the same entry state, on the same level.
    pub(crate) fn stepped(number: usize, from: Item<S>, present: S, letter: Letter) -> Candidate<S>
        ensures { result ≡ candidate (item from.level from.entry present) (Stepped number letter) }
    {
        Candidate {
            new: Item { present, ..from },
            made: Making {
                how: How::Stepped {
                    from: number,
                    letter,
                },
            },
        }
    }
}

// A search at work: its question, how far it has come, and the rows that the caller lends it. Each reference has a lifetime of its own,
// as the arguments of `open` and `advance` have that they come from.
#[derive(Debug, Drop)]
pub(crate) struct Worklist<'q, 'i, 'm, M: Machine> {
    pub(crate) question: &'q M,
    pub(crate) at: Progress,
    pub(crate) items: &'i mut [Item<M::State>],
    pub(crate) makings: &'m mut [Making],
    // the rows are as long as at opening, and every item that was entered has a place
    ghost fitting: { Fitting (board at items.now makings.now) },
}
