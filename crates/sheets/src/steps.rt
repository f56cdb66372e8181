// How a sheet steps: by its moves, one after the other.
ghost use Rattle.std.specs.Prelude.{◌≡◌, ℕ, ◌%◌, ◌<◌, [], ◌∷◌, slice_index_or};
ghost use Rattle.sheets.specs.Loops.{AddsUp};
ghost use Rattle.sheets.specs.Steps.{StepsOn, by_inner, by_letter, by_return, joined, nowhere, onward};

use crate::bounded::BoundedMove;
use crate::moves::Move;
use crate::sheet::Sheet;
use crate::state::SheetState;
use nested::letter::Letter;

impl BoundedMove {
    // What the move adds to a step by a letter; a return is one with no open call.
    // Matching the letter once, outside of the loop over the moves, would take three such functions, and was measured to be no faster.
    fn read(self, letter: Letter, state: SheetState) -> SheetState
        ensures { result ≡ onward state (by_letter (self.of ∷ []) letter) }
    {
        match (letter, self.of) {
            (Letter::Internal(read), Move::Internal { from, name, to })
            | (Letter::Call(read), Move::Call { from, name, to, .. })
            | (Letter::Return(read), Move::Pending { from, name, to })
                if name == read % 16 => { state.moved(from, to) }
            _ => SheetState::default(),
        }
    }

    // What the move adds to a step by a call named `opened` and the letters behind it, from the state before the call, in the place of
    // its mark.
    fn enter(self, row: &mut [SheetState; 16], opened: u8, before: SheetState, state: SheetState)
        ensures { (m : ℕ) → m < 16 → slice_index_or row.new m nowhere ≡ joined (slice_index_or row.old m nowhere) (onward before (by_inner (self.of ∷ []) state.pairs (opened % 16) m)) }
    {
        if let Move::Call {
            from,
            name,
            to,
            mark,
        } = self.of
        {
            if name == opened % 16 {
                row[usize::from(mark)] |= before.spread(from, to, state);
            }
        }
    }

    // What the move adds to a step by a return, from what its mark leads to.
    fn leave(self, row: &[SheetState; 16], name: u8) -> SheetState
        ensures { StepsOn row.now result (λ t. by_return (self.of ∷ []) t (name % 16)) }
    {
        match self.of {
            Move::Return {
                from,
                name: read,
                mark,
                to,
            } if read == name % 16 => row[usize::from(mark)].moved(from, to),
            _ => SheetState::default(),
        }
    }
}

impl Sheet {
    // What the moves add, in all. A step of a sheet is a plain `for` loop over its moves: its invariant is what those so far add.
    fn along<F: Fn(BoundedMove) -> SheetState>(&self, adds: F) -> SheetState
        requires { F.IsAlwaysCallable adds }
        ensures { AddsUp (F.post adds) self.now.moves.items result }
    {
        let mut reached = SheetState::default();
        for one in self.moves.iter() {
            reached |= adds(BoundedMove { of: *one });
        }
        reached
    }

    // By the moves that read a letter; a return is one with no open call.
    pub(crate) fn read(&self, letter: Letter, state: SheetState) -> SheetState
        ensures { result ≡ onward state (by_letter self.now.moves.items letter) }
    {
        self.along(|one| one.read(letter, state))
    }

    // By a call named `opened` and the letters behind it, for each mark that the call can have laid. `along` would be no plainer here: it
    // adds up one state, and a sum of whole rows would write 16 states for each move.
    pub(crate) fn entered(
        &self,
        opened: u8,
        before: SheetState,
        state: SheetState,
    ) -> [SheetState; 16]
        ensures { (m : ℕ) → m < 16 → slice_index_or result m nowhere ≡ onward before (by_inner self.now.moves.items state.pairs (opened % 16) m) }
    {
        let mut row = [SheetState::default(); 16];
        for one in self.moves.iter() {
            BoundedMove { of: *one }.enter(&mut row, opened, before, state);
        }
        row
    }

    // By a return, from what each mark leads to.
    pub(crate) fn left(&self, name: u8, row: &[SheetState; 16]) -> SheetState
        ensures { StepsOn row.now result (λ t. by_return self.now.moves.items t (name % 16)) }
    {
        self.along(|one| one.leave(row, name))
    }
}
