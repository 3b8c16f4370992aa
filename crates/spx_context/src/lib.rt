//! The type that a universal expression takes from its context (Ada 95 RM 3.4.1, 4.6, 8.6). A power of a universal number is not
//! static where its exponent is not, and takes the type that it meets: each of its largest static parts is converted to that type.
//!
//! A layer above may rely on this: `in_context` gives an expression as it is where it meets a type (`in_context` of `spx_core`), and
//! fails only where memory runs out; `type_given` is the type of what a name denotes. No rule is judged here.
#![tactic(auto)]

mod context;
mod operands;
mod powers;

pub use context::in_context;
pub use operands::type_given;
