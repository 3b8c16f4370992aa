//! The parser: from the tokens of a file to its units (Ada 95 RM 3 to 6 and 10.1; Barnes, High Integrity Software).
//!
//! A layer above may rely on this: what is read is the one list of units that is written with the tokens, and a refusal
//! stands at the token with which no file of the grammar goes on. `parse_expr` and `parse_stmts` read from the token at an
//! index on the one longest text that is there, or name the place where no text goes on.
#![tactic(auto)]

mod annotations;
mod declarative;
mod fault;
mod laws;
mod parse;
mod subprograms;

pub use fault::{MOST_LEVELS, ParseFault};
pub use laws::{one_answer, one_tree, some_answer};
pub use parse::{parse_expr, parse_stmts, parse_units};
