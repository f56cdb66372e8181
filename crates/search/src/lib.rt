// The search for a word that a machine accepts, among all nested words.
#![tactic(auto)]

mod call;
mod calls;
mod enter;
mod pairs;
mod perform;
pub mod progress;
mod rules;
mod search;
mod turn;
mod unwritten;
pub mod verdict;
mod worklist;
