// Operations on whole numbers.
ghost use Rattle.std.specs.Prelude.{◌≡◌, ◌≢◌, pos, ◌≤ℤ◌, unsigned_abs, FitsSigned};
ghost use Rattle.std.specs.Int.{w128};
ghost use Rattle.std.specs.Result.{OkIff};
ghost use Rattle.spx_num.specs.Exact.{exact, quotient, remainder, modulus, power_of};

use thiserror::Error;

/// An operation on two whole numbers.
#[derive(Clone, Copy, PartialEq, Eq)]
pub enum Op {
    Add,
    Sub,
    Mul,
}

/// The exact value lies outside `-2**127 .. 2**127 - 1`.
#[derive(Clone, Copy, Debug, PartialEq, Eq, Error)]
#[error("the value does not fit in 128 bits")]
pub struct TooWide;

/// The exact value, where it fits in 128 bits.
pub fn checked(op: Op, a: i128, b: i128) -> Result<i128, TooWide>
    ensures { OkIff result (FitsSigned w128 (exact op a b)) (exact op a b) }
{
    let value = match op {
        Op::Add => a.checked_add(b),
        Op::Sub => a.checked_sub(b),
        Op::Mul => a.checked_mul(b),
    };
    value.ok_or(TooWide)
}

/// What `/` gives, rounded toward zero (Ada 95 RM 4.5.5). Only `-2**127` by -1 is `TooWide`.
pub fn quot(a: i128, b: i128) -> Result<i128, TooWide>
    requires { b ≢ pos 0 }
    ensures { OkIff result (FitsSigned w128 (quotient a b)) (quotient a b) }
{
    a.checked_div(b).ok_or(TooWide)
}

/// What `rem` gives, with the sign of `a` (Ada 95 RM 4.5.5). This always fits, and so it is never `TooWide`.
pub fn rem(a: i128, b: i128) -> Result<i128, TooWide>
    requires { b ≢ pos 0 }
    ensures { OkIff result (FitsSigned w128 (remainder a b)) (remainder a b) }
{
    Ok(a.wrapping_rem(b))
}

/// What `mod` gives, with the sign of `b` (Ada 95 RM 4.5.5). This always fits, and so it is never `TooWide`.
pub fn modulo(a: i128, b: i128) -> Result<i128, TooWide>
    requires { b ≢ pos 0 }
    ensures { OkIff result (FitsSigned w128 (modulus a b)) (modulus a b) }
{
    let rest = a.wrapping_rem(b);
    if rest != 0 && (rest < 0) != (b < 0) {
        Ok(rest + b)
    } else {
        Ok(rest)
    }
}

/// What `**` gives, where `0 ** 0` is 1 (Ada 95 RM 4.5.6). Of the powers with an exponent above 127, only those of 0, 1
/// and -1 fit.
#[tactic(auto, using(crate::proofs::Powers::powers))]
pub fn power(a: i128, b: i128) -> Result<i128, TooWide>
    requires { pos 0 ≤ℤ b }
    ensures { OkIff result (FitsSigned w128 (power_of a (unsigned_abs b))) (power_of a (unsigned_abs b)) }
{
    if b < 128 {
        return a.checked_pow(b as u32).ok_or(TooWide);
    }
    match a {
        0 | 1 => Ok(a),
        -1 => Ok(if b % 2 == 0 { 1 } else { -1 }),
        _ => Err(TooWide),
    }
}
