// Layers: machines made of machines. A stack of layers of any height is a machine again.
#![tactic(auto)]

ghost use Rattle.std.specs.Prelude.{◌≡◌, Bool, ◌&&◌, ◌||◌};
ghost use Rattle.layers.specs.Layers.{AcceptsJoined, AcceptsOthers, not_automaton, same_pair, side_by_side};
ghost use Rattle.std.proofs.Common.{rules};

use nested::machine::Machine;

/// Steps as the machine below, and accepts exactly where that does not.
#[derive(Debug, Drop)]
pub struct Not<M>(pub M);

/// Steps two machines side by side, with pairs of their states as states; `join` says when the pair accepts.
#[derive(Debug, Drop)]
pub struct Pair<A, B, J> {
    pub first: A,
    pub second: B,
    pub join: J,
}

/// Accepts where both machines do.
pub type Both<A, B> = Pair<A, B, And>;

/// Accepts where at least one of the two machines does.
pub type Either<A, B> = Pair<A, B, Or>;

/// When a pair of machines accepts, by what the two say.
// A trait, not a closure: `Both` and `Either` need types that can be named, and a closure's cannot.
pub trait Join {
    ghost joined: { Bool → Bool → Bool };

    fn join(&self, first: bool, second: bool) -> bool
        ensures { result ≡ joined first second };
}

#[derive(Clone, Copy, Debug, PartialEq, Eq, Hash)]
pub struct And;

#[derive(Clone, Copy, Debug, PartialEq, Eq, Hash)]
pub struct Or;

impl Join for And {
    ghost joined = { ◌&&◌ };

    fn join(&self, first: bool, second: bool) -> bool {
        first && second
    }
}

impl Join for Or {
    ghost joined = { ◌||◌ };

    fn join(&self, first: bool, second: bool) -> bool {
        first || second
    }
}

impl<M: Machine> Not<M> {
    /// The complement: it accepts exactly the words that `machine` does not.
    #[tactic(auto, using(crate::proofs::LayerWords::accepts_others))]
    pub fn new(machine: M) -> Not<M>
        ensures machine { result.0 ≡ machine }
        ensures words { AcceptsOthers (M.Machine.meaning machine) }
    {
        Not(machine)
    }
}

impl<A: Machine, B: Machine, J: Join> Pair<A, B, J> {
    /// Two machines side by side: whether the pair accepts a word is told by `join` from whether the two do.
    #[tactic(auto, using(crate::proofs::LayerWords::accepts_joined))]
    pub fn new(first: A, second: B, join: J) -> Pair<A, B, J>
        ensures machines { (result.first ≡ first) × (result.second ≡ second) × (result.join ≡ join) }
        ensures words { AcceptsJoined J.Join.joined (A.Machine.meaning first) (B.Machine.meaning second) }
    {
        Pair {
            first,
            second,
            join,
        }
    }
}

// `both` and `either` differ only in the join. They stand beside `new` as the two layers that callers ask for by name.
impl<A: Machine, B: Machine> Pair<A, B, And> {
    /// The machine that accepts exactly the words that both machines accept.
    pub fn both(first: A, second: B) -> Both<A, B>
        ensures machines { (result.first ≡ first) × (result.second ≡ second) }
        ensures words { AcceptsJoined ◌&&◌ (A.Machine.meaning first) (B.Machine.meaning second) }
    {
        Pair::new(first, second, And)
    }
}

impl<A: Machine, B: Machine> Pair<A, B, Or> {
    /// The machine that accepts exactly the words that at least one of the two machines accepts.
    pub fn either(first: A, second: B) -> Either<A, B>
        ensures machines { (result.first ≡ first) × (result.second ≡ second) }
        ensures words { AcceptsJoined ◌||◌ (A.Machine.meaning first) (B.Machine.meaning second) }
    {
        Pair::new(first, second, Or)
    }
}

impl<M: Machine> Machine for Not<M> {
    type State = M::State;

    ghost meaning = { λ m. not_automaton (M.Machine.meaning m.0) };

    ghost equal = { λ m. M.Machine.equal m.0 };

    ghost equal_only = { Prim.search rules };

    ghost equal_itself = { Prim.search rules };

    fn start(&self) -> M::State {
        self.0.start()
    }

    fn internal(&self, state: M::State, name: u8) -> M::State {
        self.0.internal(state, name)
    }

    fn call(&self, state: M::State, name: u8) -> M::State {
        self.0.call(state, name)
    }

    fn ret(&self, state: M::State, before: M::State, opened: u8, name: u8) -> M::State {
        self.0.ret(state, before, opened, name)
    }

    fn pending(&self, state: M::State, name: u8) -> M::State {
        self.0.pending(state, name)
    }

    fn accepts(&self, state: M::State) -> bool {
        !self.0.accepts(state)
    }

    fn same(&self, left: M::State, right: M::State) -> bool {
        self.0.same(left, right)
    }
}

impl<A: Machine, B: Machine, J: Join> Machine for Pair<A, B, J> {
    type State = (A::State, B::State);

    ghost meaning = { λ m. side_by_side J.Join.joined (A.Machine.meaning m.first) (B.Machine.meaning m.second) };

    ghost equal = { λ m. same_pair (A.Machine.equal m.first) (B.Machine.equal m.second) };

    ghost equal_only = { Prim.search rules };

    ghost equal_itself = { Prim.search rules };

    fn start(&self) -> Self::State {
        (self.first.start(), self.second.start())
    }

    fn internal(&self, state: Self::State, name: u8) -> Self::State {
        (
            self.first.internal(state.0, name),
            self.second.internal(state.1, name),
        )
    }

    fn call(&self, state: Self::State, name: u8) -> Self::State {
        (
            self.first.call(state.0, name),
            self.second.call(state.1, name),
        )
    }

    fn ret(&self, state: Self::State, before: Self::State, opened: u8, name: u8) -> Self::State {
        let first = self.first.ret(state.0, before.0, opened, name);
        let second = self.second.ret(state.1, before.1, opened, name);
        (first, second)
    }

    fn pending(&self, state: Self::State, name: u8) -> Self::State {
        (
            self.first.pending(state.0, name),
            self.second.pending(state.1, name),
        )
    }

    fn accepts(&self, state: Self::State) -> bool {
        self.join
            .join(self.first.accepts(state.0), self.second.accepts(state.1))
    }

    fn same(&self, left: Self::State, right: Self::State) -> bool {
        self.first.same(left.0, right.0) && self.second.same(left.1, right.1)
    }
}
