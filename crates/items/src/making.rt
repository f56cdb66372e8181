// How items are made from items before them.
use nested::letter::Letter;

/// The rule that made an item, the numbers of the items that it was made from, and the letters that it adds.
#[derive(Clone, Copy, Debug, PartialEq, Eq, Hash)]
pub enum How {
    /// The item of the start state.
    Begun,
    /// From one item, by a letter: an internal one, or a pending return.
    Stepped {
        from: usize,
        letter: Letter,
    },
    /// From one item, by a call that stays open: the new item is inside it.
    Entered {
        from: usize,
        name: u8,
    },
    /// From two items, by a call from the first, what the second says of the inside, and a return.
    Matched {
        first: usize,
        second: usize,
        opened: u8,
        name: u8,
    },
}

/// How an item was made.
///
/// Any value is allowed: a making from an item that is not before it counts as begun, and a name as its remainder by 16.
#[derive(Clone, Copy, Debug, PartialEq, Eq, Hash)]
pub struct Making {
    pub how: How,
}
