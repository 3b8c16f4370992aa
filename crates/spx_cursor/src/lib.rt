//! The cursor that goes over the tokens of a file, and the operators that tokens are (Ada 95 RM 4.4 and 4.5).
//!
//! A layer above may rely on this: a step of `Cursor` reads what the reader of its definition reads, and leaves the tokens
//! that this one leaves; an operator is answered as its table says, and a chain of logical operators goes on with the same
//! operator only.
#![tactic(auto)]

mod cursor;
mod operators;

pub use cursor::{ANNOTATION, Cursor, PROGRAM, Stop};
pub use operators::{
    Chain, Relator, abs_or_not, connective_of, last_layer, logical, operand_layer, operator_place,
    place_before, power_of, relator_of, right_layer, second_word, sign_of, whole_operator,
};
