// Sheets as machines.
ghost use Rattle.std.specs.Prelude.{◌≡◌, []};
ghost use Rattle.sheets.specs.Masks.{MasksAreSets, pairs_where};
ghost use Rattle.sheets.specs.Moves.{Description, InRange};
ghost use Rattle.sheets.specs.Runs.{AcceptsByRuns};
ghost use Rattle.sheets.specs.Sheets.{described};
ghost use Rattle.sheets.specs.Steps.{identity, same_state, sheet_automaton};
ghost use Rattle.std.proofs.Common.{rules};

use crate::sheet::Sheet;
use crate::state::SheetState;
use nested::letter::Letter;
use nested::machine::Machine;
use std::alloc::Global;

// Bit 9 p for each state p: the pairs of a state with itself.
const DIAGONAL: u64 = 0x8040_2010_0804_0201;

impl Sheet {
    /// One state, no start and no accepting states, no moves.
    pub fn new(heap: Global) -> Sheet
        ensures parts { described result ≡ record { states = 1; start = 0; accepting = 0; moves = [] } }
        ensures sets { MasksAreSets }
        ensures runs { (d : Description) → InRange d → AcceptsByRuns d }
    {
        Sheet {
            states: 1,
            start: 0,
            accepting: 0,
            moves: Vec::new(heap),
        }
    }

    // Each of the sheet's states with itself.
    fn identity(&self) -> u64
        ensures { result ≡ pairs_where (identity self.now.states) }
    {
        DIAGONAL & (u64::MAX >> (64 - 8 * self.states))
    }
}

impl Machine for Sheet {
    type State = SheetState;

    ghost meaning = { λ s. sheet_automaton (described s) };

    ghost equal = { λ _ s u. same_state s u };

    ghost equal_only = { Prim.search rules };

    ghost equal_itself = { Prim.search rules };

    fn start(&self) -> SheetState {
        SheetState {
            pairs: self.identity(),
            states: self.start,
        }
    }

    fn internal(&self, state: SheetState, name: u8) -> SheetState {
        self.read(Letter::Internal(name), state)
    }

    fn call(&self, state: SheetState, name: u8) -> SheetState {
        SheetState {
            pairs: self.identity(),
            states: self.read(Letter::Call(name), state).states,
        }
    }

    fn ret(&self, state: SheetState, before: SheetState, opened: u8, name: u8) -> SheetState {
        self.left(name, &self.entered(opened, before, state))
    }

    fn pending(&self, state: SheetState, name: u8) -> SheetState {
        self.read(Letter::Return(name), state)
    }

    fn accepts(&self, state: SheetState) -> bool {
        state.states & self.accepting != 0
    }

    fn same(&self, left: SheetState, right: SheetState) -> bool {
        left == right
    }
}
