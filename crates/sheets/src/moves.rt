// The moves of a sheet.

/// One thing that a run of the automaton may do. States are from 0 to 7, names and marks from 0 to 15.
#[derive(Clone, Copy, Debug, PartialEq, Eq, Hash)]
pub enum Move {
    /// Reads an internal letter.
    Internal {
        from: u8,
        name: u8,
        to: u8,
    },
    /// Reads a call, and lays the mark on top of the stack.
    Call {
        from: u8,
        name: u8,
        to: u8,
        mark: u8,
    },
    /// Reads a return that closes a call, and takes the mark from the top of the stack.
    Return {
        from: u8,
        name: u8,
        mark: u8,
        to: u8,
    },
    /// Reads a return with no open call.
    Pending {
        from: u8,
        name: u8,
        to: u8,
    },
}
