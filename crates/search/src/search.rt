// A search between calls.
ghost use Rattle.std.specs.Prelude.{◌≡◌, ◌≤◌, true};
ghost use Rattle.search.specs.Boards.{can_go_on};
ghost use Rattle.search.specs.Model.{places};

use crate::progress::Progress;
use std::marker::PhantomData;

/// A search for a word that a machine with the states `S` accepts. The items, and how each was made, lie in rows that the caller lends
/// to each call.
#[derive(Debug, Drop)]
pub struct Search<S> {
    pub(crate) at: Progress,
    // each call takes a machine with these states, and rows of items over them
    pub(crate) states: PhantomData<S>,
    ghost few: { at.entered ≤ places at },
    ghost unhandled: { can_go_on at ≡ true },
}
