//! The static rules on declarations, annotations and statements: the first rule on names and types that is broken in
//! one, in the order of the text (Ada 95 RM 3, 5, 6, 8.3).
//!
//! A layer above may rely on these calls. `judge_param`, `judge_item`, `judge_predicate`, `judge_decl` and `judge_stmts` answer `Ok`
//! where no rule is broken in a part, and else which is broken first, exactly as the definitions of `spx_core` say. Each part is
//! judged by itself, so parts can be judged in any order. `type_row` gives what the table of types says of a type. Only it
//! allocates.
#![tactic(auto)]

mod choices;
mod coverage;
mod declaration;
mod extent;
mod row;
mod statement;

pub use declaration::{declared_once, judge_decl, judge_param};
pub use row::{TypeFault, type_row};
pub use statement::{judge_item, judge_predicate, judge_stmts};
