//! The steps of a body as shared data: what branches lead to is one step, however many lead there.
//!
//! A layer above makes them from the end of a body to its start (`Steps`, `push`), each step after those that follow it. All else is a fold
//! over six kinds of steps: how many paths there are (`has_many`), the paths one by one (`paths_from`), and the conditions (`claims_from`).
//!
//! A layer above may rely on this: an id keeps its tree when steps or terms are added, `has_many` and `paths_from` are exact for the trees of the
//! roots, `claims_from` gives the conditions of these trees without double facts, and a call of `Steps` that runs out of memory changes nothing, but
//! for `assume_all`, which may have added some of its steps.
#![tactic(auto)]

mod count;
mod listing;
mod memo;
mod parts;
mod steps;
mod values;
mod walk;

pub use count::has_many;
pub use listing::{Path, paths_from};
pub use steps::{Roots, Step, StepId, Steps};
pub use walk::claims_from;
