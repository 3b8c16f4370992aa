//! The static rules on the use of variables and on exits, in the order of the text (Barnes, High Integrity Software).
//!
//! Each function mirrors the definition that its contract cites: `Ok` where no rule is broken, `Err` with the rule that
//! is broken first. Variables are looked up in sets and not in lists of names.
//!
//! A layer above may rely on this: `obey` gives the first breach of a rule on variables in a program (`first_rule_breach`), and
//! none exactly where the program obeys these rules (`Obeys`), unless memory runs out.
#![tactic(auto)]

mod modes;
mod named;
mod program;
mod relation;
mod tables;

pub use program::obey;
