// Nested words: their letters, machines that read them, and a follower that keeps its marks in memory lent by the caller.
#![tactic(auto)]

pub mod follower;
pub mod letter;
pub mod machine;
pub mod mark;
pub mod refusal;
pub mod row;
pub mod standing;
pub mod word;
