//! From units to the one program that they are, or the first rule on names or types that they break (Ada 95 RM 3, 4, 5,
//! 6, 8.3).
//!
//! A layer above may rely on this: `resolve` has the program of the units judged, and answers it or the first rule that
//! it breaks: the names of all units come first, then each unit in the order of its text.
#![tactic(auto)]

mod fault;
mod program;
mod resolution;

pub use fault::ResolveFault;
pub use resolution::resolve;
