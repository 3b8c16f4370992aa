//! Relations between the numbers below a size, with rows of 64-bit words, and single rows.
//!
//! A layer above may rely on this: contracts see a `Relation` as a matrix of truth values and a `Row` as one row of
//! them, of which `Holds` and `Has` say what is in it, and `close` makes exactly the reflexive transitive closure. Only
//! functions that are passed an allocator take memory.
#![tactic(auto)]

mod close;
mod counted;
mod relation;
mod row;
mod steps;
mod words;

pub use relation::Relation;
pub use row::Row;
pub use steps::Steps;
