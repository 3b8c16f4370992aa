//! The examiner: from the words of a command and the files that they name to a status and a text.
//!
//! A layer above may rely on one call. `examine` does all that the program does. For `check` it reports on a program, for `conditions` it prints the conditions of one, and for
//! `run` it runs a subprogram with inputs.
//! Its clauses say what each answer means, and exactly where it comes. The words, and what the files hold, decide the status and the text
//! (`one_outcome`), and they always come to something (`some_outcome`).
#![tactic(auto)]

mod judgement;
pub mod laws;
mod load;
mod phases;
mod program;
mod reading;
mod status;
mod words;

pub use program::examine;
pub use status::Status;
