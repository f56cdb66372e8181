// Files as rows of fields, and the faults that files can have.
#![tactic(auto)]

pub mod fault;
pub mod field;
pub mod reader;
