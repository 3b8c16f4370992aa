//! What is known of an expression before a program runs (Ada 95 RM 4.9).
//!
//! A layer above may rely on these calls: `literal` gives the value that a static expression stands for, `base_of` the base type
//! whose range the results of an operation must lie in, and `subtype_of` the subtype that a name denotes. Each gives exactly what
//! its definition does.
#![tactic(auto)]

mod literals;
mod subtypes;

pub use literals::{base_of, literal};
pub use subtypes::subtype_of;
