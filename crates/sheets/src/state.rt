// The state of a sheet: sets of states as masks.
ghost use Rattle.std.specs.Prelude.{◌≡◌, ◌<◌, ◌&&◌, ◌==◌};
ghost use Rattle.sheets.specs.Masks.{pair_in};
ghost use Rattle.sheets.specs.Steps.{joined, onward};

use std::ops::BitOrAssign;

/// The states that a run of the automaton can be in.
///
/// `states` has bit `q` for each state `q` that a run can be in now. `pairs` has bit `8 p + q` for each pair of states such that a run
/// that is in `p` behind the latest open call, or at the start of the word where none is open, can be in `q` now.
///
/// The default is the state in which no run can be anywhere.
// The sets are masks: a machine's state is copied, and one shift moves every member of a set.
#[derive(Clone, Copy, Debug, Default, PartialEq, Eq, Hash)]
pub struct SheetState {
    pub pairs: u64,
    pub states: u8,
}

// Bit 8 p for each state p: the pairs whose second state is 0.
const COLUMN: u64 = 0x0101_0101_0101_0101;

// What is in one of the two, or in both.
impl BitOrAssign for SheetState {
    ghost bitor_assign_gives = { λ s u r. r ≡ joined s u };

    fn bitor_assign(&mut self, rhs: SheetState) {
        self.pairs |= rhs.pairs;
        self.states |= rhs.states;
    }
}

impl SheetState {
    // By one step, from the state `from` to the state `to`.
    pub(crate) fn moved(self, from: u8, to: u8) -> SheetState
        requires from_bound { from < 8 }
        requires to_bound { to < 8 }
        ensures { result ≡ onward self (λ q q'. (q == from) && q' == to) }
    {
        SheetState {
            pairs: ((self.pairs >> from) & COLUMN) << to,
            states: ((self.states >> from) & 1) << to,
        }
    }

    // By one step, from the state `from` to each state that makes a pair with `to` in `inner`. The product writes this row of pairs into
    // each row that has `from`.
    pub(crate) fn spread(self, from: u8, to: u8, inner: SheetState) -> SheetState
        requires from_bound { from < 8 }
        requires to_bound { to < 8 }
        ensures { result ≡ onward self (λ q q'. (q == from) && pair_in inner.pairs to q') }
    {
        let row = (inner.pairs >> (8 * to)) & 255;
        SheetState {
            pairs: ((self.pairs >> from) & COLUMN) * row,
            states: ((self.states >> from) & 1) * row as u8,
        }
    }
}
