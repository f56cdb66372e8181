// Items: what a machine's words can lead to.

/// Whether a call is open.
///
/// An item of the base level is about words read from the start with no call open at their end. An item of the inner level is about
/// what is read behind a call that is still open.
#[derive(Clone, Copy, Debug, PartialEq, Eq, Hash)]
pub enum Level {
    Base,
    Inner,
}

/// That some word leads from the entry state to the present state, with no call open that is opened in it.
///
/// The entry state is the start state at the base level, and the state behind the latest open call at the inner level.
#[derive(Clone, Copy, Debug, PartialEq, Eq, Hash)]
pub struct Item<S> {
    pub level: Level,
    pub entry: S,
    pub present: S,
}
