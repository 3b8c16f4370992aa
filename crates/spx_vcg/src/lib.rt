//! Verification conditions of subprograms.
//!
//! A layer above may rely on this: `shared_conditions` answers the conditions of a subprogram (`conditions_of` of
//! `spx_paths`) over shared terms and facts. Its body is made into steps once, and then walked along each path from cut to cut, where a
//! beginning that paths share is walked once. `conditions` answers the same as trees. Both refuse a subprogram exactly where it
//! has more than `MOST_PATHS` paths, or else one of its conditions has more than `MOST_NODES` nodes, or where memory runs out.
#![tactic(auto)]

mod fault;
mod limit;
mod vcg;

pub use fault::VcFault;
pub use vcg::{condition_name, conditions, shared_conditions};
