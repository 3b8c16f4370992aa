//! What names denote at a place: regions of declarations, one inside another.
//!
//! A layer above may rely on this: a region is the list of its declarations, of which each word has one, and letter case
//! does not count; a scope is a list of regions, the innermost first (`seen`), and a look-up in it is `denoted`. What is
//! declared everywhere stands in one list, `Standard`.
#![tactic(auto)]

mod region;
mod scope;
mod standard;

pub use region::Region;
pub use scope::Scope;
pub use standard::Standard;
