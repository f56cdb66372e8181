// Records: read, written, and checked with a machine.
#![tactic(auto)]

pub mod check;
pub mod read;
pub mod write;
