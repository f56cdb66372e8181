// Name lists: which bytes make a name, and lists of names loaded from files.
#![tactic(auto)]

pub mod list;
pub mod name;
