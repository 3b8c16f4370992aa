//! Bodies as few things: what statements do to variables, as flow and unset reads see it.
//!
//! A layer above may rely on this: `lower` answers a tree whose meaning (`effect_in`) is the effect of the statements as
//! `spx_core` defines it (`effects`). `if`, `case` and each form of exit are one form, a branch; names are variables. A row
//! of statements, the arms of an `if` and the alternatives of a `case` are lists, so that a pass over them recurses once for
//! each level of nesting.
#![tactic(auto)]

mod body;
mod item;
mod reads;

pub use body::lower;
pub use item::{Arm, Assignment, Head, Item, Read};
