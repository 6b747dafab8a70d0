// The records of the books: their structs, the tests of a validator, and the reads and stores of the lent tables.

#![tactic(auto)]

pub mod bytes; // copies of fixed bytes
pub mod validator; // the validator record and its tests
pub mod registry; // the identities and the validators' words
pub mod queues; // deposits, partial withdrawals, consolidations
pub mod books; // scalars and tables lent together for reading
