// A move of a sheet, with its numbers in range.
ghost use Rattle.std.specs.Prelude.{◌≡◌, true};
ghost use Rattle.sheets.specs.Moves.{in_range};

use crate::moves::Move;

/// A move whose states are below 8, and whose name and mark are below 16.
#[derive(Clone, Copy, Debug)]
pub(crate) struct BoundedMove {
    pub(crate) of: Move,
    ghost in_range: { in_range 8 of ≡ true },
}
