// Rows of mark places.
ghost use Rattle.std.specs.Prelude.{◌≡◌, replicate, IfOk};

use crate::machine::Machine;
use crate::mark::Mark;
use std::alloc::{AllocError, Global};

/// The most places of a row that count.
pub const MOST_PLACES: usize = 4096;

/// A row of mark places to lend to a follower with this machine. What it holds does not matter to one.
pub fn mark_row<M: Machine>(
    machine: &M,
    places: usize,
    heap: Global,
) -> Result<Vec<Mark<M::State>>, AllocError>
    ensures { IfOk result (λ v. v.items ≡ replicate places (record { state = (M.Machine.meaning machine.now).start; name = 0 })) }
{
    let mark = Mark {
        state: machine.start(),
        name: 0,
    };
    // `vec![in heap; mark; places]` would fill the row with clones of `mark`, and no machine says what a clone of its states is.
    // `resize` fills it with copies.
    let mut marks = Vec::new(heap);
    marks.resize(places, mark)?;
    Ok(marks)
}
