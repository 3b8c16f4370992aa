// Numbers, and what operations make of them (Ada 95 RM 4.5).
ghost use Rattle.std.specs.Prelude.{◌≡◌, ◌+ℤ◌, ◌-ℤ◌, ◌*ℤ◌, pos};
ghost use Rattle.spx_num.specs.Exact.{absolute, exact, modulus, or_zero, quotient, raised, remainder};
ghost use Rattle.spx_num.specs.Widths.{fitting};

use spx_num::{Op, checked, modulo, power, quot, rem};

/// A sum, a difference or a product, where 128 bits hold it.
#[tactic(auto, using(spx_num::specs::Widths::fits_laws))]
pub(crate) fn exact(op: Op, m: i128, n: i128) -> Option<i128>
    ensures { result ≡ fitting (exact op m n) }
{
    checked(op, m, n).ok()
}

/// What `/` gives, where 128 bits hold it. A division by 0 gives 0.
#[tactic(auto, using(spx_num::specs::Widths::fits_laws))]
pub(crate) fn quotient(m: i128, n: i128) -> Option<i128>
    ensures { result ≡ fitting (or_zero quotient m n) }
{
    if n == 0 { Some(0) } else { quot(m, n).ok() }
}

/// What `rem` gives, which 128 bits always hold. A division by 0 gives 0.
pub(crate) fn remainder(m: i128, n: i128) -> i128
    ensures { result ≡ or_zero remainder m n }
{
    if n == 0 { 0 } else { rem(m, n).unwrap() }
}

/// What `mod` gives, which 128 bits always hold. A division by 0 gives 0.
pub(crate) fn modulus(m: i128, n: i128) -> i128
    ensures { result ≡ or_zero modulus m n }
{
    if n == 0 { 0 } else { modulo(m, n).unwrap() }
}

/// What `**` gives, where 128 bits hold it. A negative exponent gives 0.
#[tactic(auto, using(spx_num::specs::Widths::fits_laws))]
pub(crate) fn raised(m: i128, n: i128) -> Option<i128>
    ensures { result ≡ fitting (raised m n) }
{
    if n < 0 { Some(0) } else { power(m, n).ok() }
}

/// What `abs` gives, where 128 bits hold it.
#[tactic(auto, using(spx_num::specs::Widths::fits_laws))]
pub(crate) fn absolute(n: i128) -> Option<i128>
    ensures { result ≡ fitting (absolute n) }
{
    if n < 0 { n.checked_neg() } else { Some(n) }
}
