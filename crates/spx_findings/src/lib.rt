//! What the verification conditions of a program come to: the findings on those that are left, and the text of all of them.
//!
//! A layer above may rely on two calls. `findings` gives exactly the findings on conditions and a row for each body, and `conditions_text`
//! the text of all conditions. A `FindFault` says which limit is passed first. No call changes what it is lent.
#![tactic(auto)]

pub mod laws;
mod listing;
mod tally;

pub use listing::conditions_text;
pub use tally::findings;
