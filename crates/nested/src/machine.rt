// What every machine on nested words gives.
ghost use Rattle.std.specs.Prelude.{◌≡◌, ◌%◌, Bool, true};
ghost use Rattle.nested.specs.Automata.{Automaton};

/// A machine that reads nested words letter by letter.
///
/// A name above 15 counts as its remainder by 16. No machine refuses a letter, and asking alters no machine.
pub trait Machine {
    type State: Copy;

    // What the machine means: each answer below is this automaton's, for every state and every name.
    ghost meaning: { Self → Automaton Self.State };

    // The test of equal states.
    ghost equal: { Self → Self.State → Self.State → Bool };

    /// The state before the first letter.
    fn start(&self) -> Self::State
        ensures { result ≡ (meaning self.now).start };

    /// The state after an internal letter.
    fn internal(&self, state: Self::State, name: u8) -> Self::State
        ensures { result ≡ (meaning self.now).internal state (name % 16) };

    /// The state after a call.
    fn call(&self, state: Self::State, name: u8) -> Self::State
        ensures { result ≡ (meaning self.now).call state (name % 16) };

    /// The state after a return whose partner is a call named `opened`, read in the state `before`.
    fn ret(&self, state: Self::State, before: Self::State, opened: u8, name: u8) -> Self::State
        ensures { result ≡ (meaning self.now).ret state before (opened % 16) (name % 16) };

    /// The state after a return with no open call.
    fn pending(&self, state: Self::State, name: u8) -> Self::State
        ensures { result ≡ (meaning self.now).pending state (name % 16) };

    /// Whether a word that ends in this state is accepted.
    fn accepts(&self, state: Self::State) -> bool
        ensures { result ≡ (meaning self.now).accepts state };

    /// Whether two states are equal.
    fn same(&self, left: Self::State, right: Self::State) -> bool
        ensures { result ≡ equal self.now left right };

    ghost equal_only: { (m : Self) (s u : Self.State) → equal m s u ≡ true → s ≡ u };

    ghost equal_itself: { (m : Self) (s : Self.State) → equal m s s ≡ true };
}
