// What a search derives: items, how each was made, and the words that they stand for.
#![tactic(auto)]

pub mod item;
pub mod making;
pub mod words;
