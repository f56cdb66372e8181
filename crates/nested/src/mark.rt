// What a call saves for the return that closes it.

/// A mark: the state just before a call, and the call's name. A name above 15 counts as its remainder by 16.
#[derive(Clone, Copy, Debug, PartialEq, Eq, Hash)]
pub struct Mark<S> {
    pub state: S,
    pub name: u8,
}
