//! Runs of a subprogram with inputs: what `run` reads, does and prints.
//!
//! A layer above may rely on these calls. `read_inputs` gives exactly the lines `NAME = VALUE` of an inputs file, or its first bad
//! line. `run` gives exactly what the run of a subprogram with inputs comes to (`result_of`): what is wrong with the inputs, or how the
//! bounded call ends. `RunResult::text` is what is printed. Two laws say that a text of inputs is read in exactly one way.
#![tactic(auto)]

mod entry;
mod given;
mod inputs;
pub mod laws;
mod printing;
mod reading;
mod result;
mod tokens;
mod values;

pub use entry::run;
pub use inputs::{InputFault, InputLine, InputPart, InputValue, Inputs, read_inputs};
pub use result::{InputFinding, Output, RunResult};
