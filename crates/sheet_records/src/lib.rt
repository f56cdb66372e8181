// Records checked with a sheet.
#![tactic(auto)]

pub mod check;
