//! The steps of a proof.
//!
//! A step reads a sequent and answers what it changes; `applied` then makes the sequents that are left. A layer above may rely on
//! this: `step` and `step_on` give the sequents of the definition `step`, or say why there are none. Only when memory runs out is
//! left open. Where the sequents that are left are valid, so is the one that was given (`step_is_valid`), and where that one is
//! of Boolean terms, so are they (`step_keeps_sorts`).
#![tactic(auto)]

mod certificate;
mod change;
mod division;
mod element;
mod fault;
mod laws;
mod logic;
mod names;
mod parts;
mod quantifier;
mod rewriting;
mod rule;
mod scope;
mod stepping;

pub use fault::StepFault;
pub use laws::{step_is_valid, step_keeps_sorts};
pub use rule::{Entry, Rule, RuleOf};
pub use stepping::{step, step_on};
