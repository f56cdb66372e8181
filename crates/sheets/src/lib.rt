// Sheets: automata on nested words that may choose, followed by the sets of states that their runs can be in.
#![tactic(auto)]

mod bounded;
pub mod machine;
pub mod moves;
pub mod sheet;
pub mod state;
mod steps;
pub mod word;
