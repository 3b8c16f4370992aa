//! Linear forms of comparisons of integers, and certificates that refute them.
//!
//! A certificate is a whole multiplier for each of some forms. A layer above may rely on this: `linear_form` gives a form that
//! holds where the comparison does (`linear_form_is_meant`), and where `refutes` answers true, no values of the names make all
//! forms hold (`refutation_is_sound`). Both are exact: numbers have 128 bits, and `TooWide` comes only where a number on the
//! way is wider.
#![tactic(auto)]

mod comparison;
mod fault;
mod form;
mod laws;
mod refutation;
mod sums;

pub use comparison::{MOST_SUMS, is_comparison, linear_form};
pub use fault::LinearFault;
pub use form::{Form, Part};
pub use laws::{linear_form_is_meant, refutation_is_sound};
pub use refutation::refutes;
