// A follower reads a record letter by letter with a machine.
ghost use Rattle.std.specs.Prelude.{◌≡◌, ◌%◌, ◌<◌, ◌≤◌, length, MatchResult};
ghost use Rattle.nested.specs.Letters.{letter_of};
ghost use Rattle.nested.specs.Following.{begun_at, follow_refusal, Reads, RefusedBy};
ghost use Rattle.nested.specs.declared.letter.Letter.TheVariants.{Call, Return};

use crate::letter::Letter;
use crate::machine::Machine;
use crate::mark::Mark;
use crate::refusal::Refusal;
use crate::row::MOST_PLACES;
use crate::standing::Standing;

/// Follows a record with a machine. The marks of the open calls lie in a row that the caller lends to each call.
#[derive(Debug, Drop)]
pub struct Follower<'a, M: Machine> {
    machine: &'a M,
    at: Position<M::State>,
    ghost within: { at.taken ≤ at.row },
}

// Where a follower stands: its state, how many mark places are taken, and the length of the row that was lent at begin. The row itself
// is the caller's, who lends it to each call.
#[derive(Clone, Copy, Debug)]
struct Position<S> {
    state: S,
    taken: usize,
    row: usize,
}

impl<'a, M: Machine> Follower<'a, M> {
    /// A follower before the first letter. Of the row of mark places the first 4,096 count.
    pub fn begin(machine: &'a M, marks: &[Mark<M::State>]) -> Follower<'a, M>
        ensures machine { result.machine.now ≡ machine.now }
        ensures at { result.at ≡ begun_at (M.Machine.meaning machine.now) (length marks.now) }
    {
        let at = Position {
            state: machine.start(),
            taken: 0,
            row: marks.len(),
        };
        Follower { machine, at }
    }

    /// Reads the letter with this code. `marks` is the row of mark places that was lent at begin, as the calls since then left it.
    ///
    /// Refused, in this order: a row whose length is not that at begin; a code above 47; a call where every mark place is taken. A
    /// refused letter leaves follower and marks as they were. A mark taken back stays in its place until a later call takes that place.
    pub fn follow(&mut self, code: u8, marks: &mut [Mark<M::State>]) -> Result<(), Refusal>
        ensures answer { RefusedBy result (follow_refusal self.old.at (length marks.old) code) }
        ensures reads { MatchResult result (λ _. Reads (M.Machine.meaning self.old.machine.now) (letter_of code) self.old.at marks.old self.new.at marks.new) (λ _. (self.new.at ≡ self.old.at) × (marks.new ≡ marks.old)) }
        ensures machine { self.new.machine.now ≡ self.old.machine.now }
    {
        if marks.len() != self.at.row {
            return Err(Refusal::RowLength);
        }
        match Letter::try_from(code)? {
            Letter::Call(name) => {
                if self.at.taken >= self.at.row.min(MOST_PLACES) {
                    return Err(Refusal::MarksFull);
                }
                self.at.call(self.machine, name, marks);
            }
            Letter::Return(name) => self.at.ret(self.machine, name, marks),
            Letter::Internal(name) => self.at.internal(self.machine, name),
        }
        Ok(())
    }

    /// Whether the state accepts, and how many calls are open.
    pub fn standing(&self) -> Standing
        ensures accepts { result.accepts ≡ (M.Machine.meaning self.now.machine.now).accepts self.now.at.state }
        ensures taken { result.«open» ≡ self.now.at.taken }
    {
        Standing {
            accepts: self.machine.accepts(self.at.state),
            open: self.at.taken,
        }
    }
}

impl<S: Copy> Position<S> {
    // Reads a call.
    fn call<M: Machine<State = S>>(&mut self, machine: &M, name: u8, marks: &mut [Mark<S>])
        requires { (self.old.taken < self.old.row) × (self.old.row ≡ length marks.old) }
        ensures { Reads (M.Machine.meaning machine.now) (Call name) self.old marks.old self.new marks.new }
    {
        marks[self.taken] = Mark {
            state: self.state,
            name,
        };
        self.state = machine.call(self.state, name);
        self.taken += 1;
    }

    // Reads a return: one that closes the latest call still open, or one that is pending.
    fn ret<M: Machine<State = S>>(&mut self, machine: &M, name: u8, marks: &[Mark<S>])
        requires { self.old.taken ≤ length marks.now }
        ensures { Reads (M.Machine.meaning machine.now) (Return name) self.old marks.now self.new marks.now }
    {
        match marks[..self.taken].last() {
            None => self.state = machine.pending(self.state, name),
            Some(mark) => {
                self.state = machine.ret(self.state, mark.state, mark.name, name);
                self.taken -= 1;
            }
        }
    }

    // Reads an internal letter, which has no mark.
    fn internal<M: Machine<State = S>>(&mut self, machine: &M, name: u8)
        ensures { self.new ≡ record self.old { state = (M.Machine.meaning machine.now).internal self.old.state (name % 16) } }
    {
        self.state = machine.internal(self.state, name);
    }
}
