//! Exact numbers of up to 128 bits, and their decimal text.
//!
//! A layer above may rely on this: an answer is the exact value, and `TooWide` comes only where that value does not
//! fit in 128 bits. The caller tests first that a divisor is not 0, and that an exponent is not negative.
#![tactic(auto)]

mod arithmetic;
mod laws;
mod printing;

pub use arithmetic::{Op, TooWide, checked, modulo, power, quot, rem};
pub use laws::{division_laws, modulus_laws, power_laws};
pub use printing::decimal;
