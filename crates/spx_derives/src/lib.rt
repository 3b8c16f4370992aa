//! The bodies of subprograms against the dependency relations that they declare (Bergeretti and Carré, TOPLAS 1985).
//!
//! A layer above may rely on this: `compare` answers exactly the findings of a subprogram, each once, and `compare_backward` the
//! same from the part of its flow that leads on to the variables after the body.
#![tactic(auto)]

mod derives;
mod differences;
mod finding;
mod laws;
mod occurrences;
mod tables;
mod unset;

pub use derives::{compare, compare_backward};
pub use finding::FlowFinding;
pub use laws::some_findings;
