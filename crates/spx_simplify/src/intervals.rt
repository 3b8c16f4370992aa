// Arithmetic of intervals.
ghost use Rattle.std.specs.Prelude.{◌≡◌, pos, ◌-ℤ◌, ◌≤ℤ◌, int_lt, int_le, option_map};
ghost use Rattle.std.specs.Ordering.{int_eq};
ghost use Rattle.spx_num.specs.Exact.{exact, absolute};
ghost use Rattle.spx_num.specs.Widths.{fitting};
ghost use Rattle.spx_term.specs.Intervals.{unbounded, point, sum_of, difference_of, end_of, higher, lower, meet, lesser, greater, up_to_magnitude, quotient_of, nearer_than, remainder_of, modulus_of, farthest, absolute_of, allowed, mirrored, range_of, structural, structural_binary, structural_prefix, structural_unary};
ghost use Rattle.spx_term.specs.Plain.{ends_meet, settled};

use crate::products::product;
use spx_num::{Op, checked};
use spx_term::{BinaryOp, Component, Interval, Literal, TermOp, TermPrefix, UnaryOp};

/// All numbers.
pub const UNBOUNDED: Interval = Interval {
    low: None,
    high: None,
};

/// The interval of an operation on terms of these intervals, where the right one is a literal of this value, or none.
#[tactic(auto, unfolding(spx_term::specs::Intervals::structural))]
pub fn structural(op: TermOp, left: Interval, right: Interval, literal: Option<Literal>) -> Interval
    ensures { result ≡ structural op left right literal }
{
    match op {
        TermOp::Add => sum(left, right),
        TermOp::Subtract => difference(left, right),
        TermOp::Multiply => product(left, right),
        TermOp::Divide => quotient(left),
        TermOp::Rem => remainder(left, literal),
        TermOp::Mod => modulus(right),
        _ => UNBOUNDED,
    }
}

/// The interval of an operation on a term of this interval.
#[tactic(auto, unfolding(spx_term::specs::Intervals::structural_prefix))]
pub fn structural_prefix(op: TermPrefix, operand: Interval) -> Interval
    ensures { result ≡ structural_prefix op operand }
{
    match op {
        TermPrefix::Minus => difference(point(0), operand),
        TermPrefix::Abs => absolute(operand),
        TermPrefix::Not => UNBOUNDED,
    }
}

/// The numbers of the type of a component.
fn range_of(component: Component) -> Interval
    ensures { result ≡ range_of component }
{
    match component {
        Component::Integer(low, high) => Interval {
            low: Some(i128::from(low)),
            high: Some(i128::from(high)),
        },
        Component::Boolean => UNBOUNDED,
        Component::Composite(_) => UNBOUNDED,
    }
}

/// The interval of an operation on a composite value, which is in its type or not.
#[tactic(auto, unfolding(spx_term::specs::Intervals::structural_unary))]
pub fn structural_unary(op: UnaryOp, typed: bool) -> Interval
    ensures { result ≡ structural_unary op typed }
{
    match op {
        UnaryOp::Field(_, component) => {
            if typed {
                range_of(component)
            } else {
                UNBOUNDED
            }
        }
        UnaryOp::In(_) => UNBOUNDED,
        UnaryOp::Others(_) => UNBOUNDED,
    }
}

/// The interval of an operation on a composite value, which is in its type or not, and another term.
#[tactic(auto, unfolding(spx_term::specs::Intervals::structural_binary))]
pub fn structural_binary(op: BinaryOp, typed: bool) -> Interval
    ensures { result ≡ structural_binary op typed }
{
    match op {
        BinaryOp::Element(array) => {
            if typed {
                range_of(array.element)
            } else {
                UNBOUNDED
            }
        }
        BinaryOp::Update(_) => UNBOUNDED,
        BinaryOp::Elements(_, _, _) => UNBOUNDED,
        BinaryOp::Field(_) => UNBOUNDED,
    }
}

/// One number.
pub fn point(value: i128) -> Interval
    ensures { result ≡ point value }
{
    Interval {
        low: Some(value),
        high: Some(value),
    }
}

fn sum(left: Interval, right: Interval) -> Interval
    ensures { result ≡ sum_of left right }
{
    Interval {
        low: end(Op::Add, left.low, right.low),
        high: end(Op::Add, left.high, right.high),
    }
}

fn difference(left: Interval, right: Interval) -> Interval
    ensures { result ≡ difference_of left right }
{
    Interval {
        low: end(Op::Sub, left.low, right.high),
        high: end(Op::Sub, left.high, right.low),
    }
}

/// The end at the value of an operation on two ends. There is none where it does not fit in 128 bits.
#[tactic(auto, using(spx_num::specs::Widths::fits_laws))]
fn end(op: Op, left: Option<i128>, right: Option<i128>) -> Option<i128>
    ensures { result ≡ end_of (exact op) left right }
{
    match (left, right) {
        (Some(left), Some(right)) => match checked(op, left, right) {
            Ok(value) => Some(value),
            Err(_) => None,
        },
        _ => None,
    }
}

/// A quotient is no further from 0 than the dividend.
fn quotient(left: Interval) -> Interval
    ensures { result ≡ quotient_of left }
{
    let Some(low) = left.low else {
        return UNBOUNDED;
    };
    let Some(high) = left.high else {
        return UNBOUNDED;
    };
    around_zero(least(minus_magnitude(low), minus_magnitude(high)))
}

/// The distance of a number from 0, with a minus sign. This always fits.
fn minus_magnitude(value: i128) -> i128
    ensures equal { result ≡ pos 0 -ℤ absolute value }
    ensures negative { result ≤ℤ pos 0 }
{
    if value < 0 { value } else { -value }
}

fn least(a: i128, b: i128) -> i128
    ensures { result ≡ lesser a b }
{
    if b < a { b } else { a }
}

fn greatest(a: i128, b: i128) -> i128
    ensures { result ≡ greater a b }
{
    if a < b { b } else { a }
}

/// The numbers that are no further from 0 than a number that is at most 0.
fn around_zero(low: i128) -> Interval
    ensures { result ≡ up_to_magnitude (pos 0 -ℤ low) }
{
    Interval {
        low: Some(low),
        high: end(Op::Sub, Some(0), Some(low)),
    }
}

/// A remainder is nearer to 0 than a divisor that is not 0.
fn nearer_than(divisor: Option<Literal>) -> Interval
    ensures { result ≡ nearer_than divisor }
{
    match divisor {
        Some(Literal::Number(value)) => {
            if value == 0 {
                return UNBOUNDED;
            }
            around_zero(minus_magnitude(value) + 1)
        }
        Some(Literal::Truth(_)) => UNBOUNDED,
        None => UNBOUNDED,
    }
}

/// A remainder lies between 0 and the dividend.
fn remainder(left: Interval, divisor: Option<Literal>) -> Interval
    ensures { result ≡ remainder_of left divisor }
{
    meet(with_zero(left), nearer_than(divisor))
}

/// An interval, and 0.
fn with_zero(operand: Interval) -> Interval
    ensures { result ≡ record { low = option_map (lesser (pos 0)) operand.low; high = option_map (greater (pos 0)) operand.high } }
{
    Interval {
        low: match operand.low {
            Some(low) => Some(least(0, low)),
            None => None,
        },
        high: match operand.high {
            Some(high) => Some(greatest(0, high)),
            None => None,
        },
    }
}

/// A modulus lies between 0 and the divisor, which it is not.
fn modulus(right: Interval) -> Interval
    ensures { result ≡ modulus_of right }
{
    Interval {
        low: match right.low {
            Some(low) => Some(if low < -1 { low + 1 } else { 0 }),
            None => None,
        },
        high: match right.high {
            Some(high) => Some(if 1 < high { high - 1 } else { 0 }),
            None => None,
        },
    }
}

/// The distances from 0.
fn absolute(operand: Interval) -> Interval
    ensures { result ≡ absolute_of operand }
{
    let least = higher(operand.low, end(Op::Sub, Some(0), operand.high));
    Interval {
        low: higher(Some(0), least),
        high: farthest(operand.low, operand.high),
    }
}

/// The greatest distance from 0.
fn farthest(low: Option<i128>, high: Option<i128>) -> Option<i128>
    ensures { result ≡ farthest low high }
{
    let Some(low) = low else {
        return None;
    };
    let Some(high) = high else {
        return None;
    };
    farther(low, high)
}

/// The distance of the end that is farther from 0.
fn farther(low: i128, high: i128) -> Option<i128>
    ensures { result ≡ fitting (greater (pos 0 -ℤ low) high) }
{
    match checked(Op::Sub, 0, low) {
        Ok(value) => Some(greatest(value, high)),
        Err(_) => None,
    }
}

/// The numbers of both intervals.
pub fn meet(a: Interval, b: Interval) -> Interval
    ensures { result ≡ meet a b }
{
    Interval {
        low: higher(a.low, b.low),
        high: lower(a.high, b.high),
    }
}

fn higher(a: Option<i128>, b: Option<i128>) -> Option<i128>
    ensures { result ≡ higher a b }
{
    match (a, b) {
        (Some(x), Some(y)) => { if x < y { b } else { a } }
        (None, _) => b,
        (_, None) => a,
    }
}

fn lower(a: Option<i128>, b: Option<i128>) -> Option<i128>
    ensures { result ≡ lower a b }
{
    match (a, b) {
        (Some(x), Some(y)) => { if y < x { b } else { a } }
        (None, _) => b,
        (_, None) => a,
    }
}

/// `b op a` where the operation is `a op b`.
#[tactic(auto, unfolding(spx_term::specs::Intervals::mirrored))]
pub fn mirrored(op: TermOp) -> TermOp
    ensures { result ≡ mirrored op }
{
    match op {
        TermOp::Less => TermOp::Greater,
        TermOp::LessOrEqual => TermOp::GreaterOrEqual,
        TermOp::Greater => TermOp::Less,
        TermOp::GreaterOrEqual => TermOp::LessOrEqual,
        _ => op,
    }
}

/// The numbers that a comparison with `value` allows.
#[tactic(auto, unfolding(spx_term::specs::Intervals::allowed))]
pub fn numbers_to(op: TermOp, value: i128) -> Interval
    ensures { result ≡ allowed op value }
{
    match op {
        TermOp::Equal => point(value),
        TermOp::Less => Interval {
            low: None,
            high: end(Op::Sub, Some(value), Some(1)),
        },
        TermOp::LessOrEqual => Interval {
            low: None,
            high: Some(value),
        },
        TermOp::Greater => Interval {
            low: end(Op::Add, Some(value), Some(1)),
            high: None,
        },
        TermOp::GreaterOrEqual => Interval {
            low: Some(value),
            high: None,
        },
        _ => UNBOUNDED,
    }
}

/// Whether a comparison holds of every two numbers of these intervals.
#[tactic(auto, unfolding(spx_term::specs::Plain::settled))]
pub fn settles(op: TermOp, left: Interval, right: Interval) -> bool
    ensures { result ≡ settled op left right }
{
    match op {
        TermOp::Equal => {
            is_same_end(left.low, left.high)
                && is_same_end(left.low, right.low)
                && is_same_end(left.low, right.high)
        }
        TermOp::NotEqual => is_below(left.high, right.low) || is_below(right.high, left.low),
        TermOp::Less => is_below(left.high, right.low),
        TermOp::LessOrEqual => is_at_most(left.high, right.low),
        TermOp::Greater => is_below(right.high, left.low),
        TermOp::GreaterOrEqual => is_at_most(right.high, left.low),
        _ => false,
    }
}

fn is_same_end(a: Option<i128>, b: Option<i128>) -> bool
    ensures { result ≡ ends_meet int_eq a b }
{
    match (a, b) {
        (Some(a), Some(b)) => a == b,
        _ => false,
    }
}

fn is_below(high: Option<i128>, low: Option<i128>) -> bool
    ensures { result ≡ ends_meet int_lt high low }
{
    match (high, low) {
        (Some(high), Some(low)) => high < low,
        _ => false,
    }
}

fn is_at_most(high: Option<i128>, low: Option<i128>) -> bool
    ensures { result ≡ ends_meet int_le high low }
{
    match (high, low) {
        (Some(high), Some(low)) => high <= low,
        _ => false,
    }
}
