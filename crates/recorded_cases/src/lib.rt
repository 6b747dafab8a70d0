// The recorded cases of the mended Rust: the container that they stand in, what is lent to replay them, and what was
// recorded against what was found. All of it promises safety alone.

#![tactic(auto)]

pub mod books; // what is lent
pub mod compare; // recorded against found
pub mod container; // cases and their sections
pub mod laid; // books laid into tables without a test
