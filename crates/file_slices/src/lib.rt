// The two files for calls from other languages: settings and scalars are lent as plain slices, a length or a count as
// one number, and a refusal changes nothing that was lent.

#![tactic(auto)]

pub mod reader; // a books file, into lent tables
pub mod runner; // a calls file, carried out on lent books
pub mod writer; // lent books, as a file
