#![tactic(auto)]

pub mod depth;
pub mod names;
