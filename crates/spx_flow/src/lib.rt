//! Information flow of subprograms (Bergeretti and Carré, TOPLAS 1985).
//!
//! A layer above may rely on this: `flow_of` answers the flow of a body exactly as `spx_core` defines it (`IsFlow`), with
//! variables by their position in the subprogram's list and occurrences by their place, in two passes over the body;
//! `backward_flow_of` answers the part of it that leads on to the variables after the body, in one of them, with the items of the body. What a pass costs, the
//! head of `spx_passes` says. `flow_of` refuses a subprogram exactly where that has more than `MOST_VARIABLES` variables, or where
//! memory runs out, and so does `backward_flow_of`.
#![tactic(auto)]

mod fault;
mod flow;

pub use fault::{FlowFault, MOST_VARIABLES};
pub use flow::{BodyFlow, Flow, backward_flow_of, flow_of};
pub use spx_passes::{BackwardFlow, Occurrence};
