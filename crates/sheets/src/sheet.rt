// Sheets, with all their numbers in range.
ghost use Rattle.std.specs.Prelude.{◌≡◌, ◌^◌, ◌<◌, ◌≤◌, true, vec_len};
ghost use Rattle.sheets.specs.Moves.{all_in_range};

use crate::moves::Move;

/// An automaton on nested words that may choose: 1 to 8 states, a set of start states and one of accepting states as masks with bit `q`
/// for the state `q`, and at most 256 moves.
#[derive(Debug, Drop)]
pub struct Sheet {
    pub states: u8,
    pub start: u8,
    pub accepting: u8,
    pub moves: Vec<Move>,
    ghost some_states: { 1 ≤ states },
    ghost few_states: { states ≤ 8 },
    ghost start_in: { start < 2 ^ states },
    ghost accepting_in: { accepting < 2 ^ states },
    ghost few_moves: { vec_len moves ≤ 256 },
    ghost moves_in: { all_in_range states moves.items ≡ true },
}
