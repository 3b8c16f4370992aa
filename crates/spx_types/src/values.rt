// Static values: ranges, and operations (Ada 95 RM 3.5, 4.5, 4.9).
ghost use Rattle.std.specs.Prelude.{◌≡◌, Some};
ghost use Rattle.spx_core.specs.declared.rule.ExprType.TheVariants.{Of};
ghost use Rattle.spx_core.specs.Types as is;
ghost use Rattle.spx_num.specs.Exact.{exact};
ghost use Rattle.spx_num.specs.Widths.{fitting};
ghost use Rattle.spx_tree.specs.declared.expression.InfixOp.TheVariants as op;
ghost use Rattle.spx_tree.specs.declared.expression.PrefixOp.TheVariants as sign;

use spx_core::{BaseType, Class, ExprType, OperandType, Shift, Span, Subtype, UNIVERSAL};
use spx_num::{Op, checked, modulo, power, quot, rem};
use spx_tree::{InfixOp, MemberOp, PrefixOp};

/// Whether a value lies between two.
pub fn is_between(first: i128, last: i128, n: i128) -> bool
    ensures { result ≡ is.is_between first last n }
{
    first <= n && n <= last
}

/// Whether a value lies in a range, if it is static.
fn lies_between(first: i128, last: i128, value: Option<i128>) -> bool
    ensures { result ≡ is.lies_between first last value }
{
    match value {
        Some(n) => is_between(first, last, n),
        None => true,
    }
}

/// Whether a value is one of the type, if it is static.
pub fn lies_in(of: ExprType, value: Option<i128>) -> bool
    ensures { result ≡ is.lies_in of value }
{
    match of {
        ExprType::Universal => true,
        ExprType::Of(base) => lies_between(base.first, base.last, value),
    }
}

/// The position of a truth value.
fn truth(value: bool) -> i128
    ensures { result ≡ is.truth value }
{
    if value { 1 } else { 0 }
}

/// The truth value at a position.
fn is_true(n: i128) -> bool
    ensures { result ≡ is.is_true n }
{
    n != 0
}

/// The position of a literal of a class; that of a truth value is 0 or 1.
pub fn position_in(class: Class, position: i128) -> i128
    ensures { result ≡ is.position_in class position }
{
    match class {
        Class::Integer | Class::Enumeration | Class::Composite => position,
        Class::Boolean => truth(is_true(position)),
    }
}

#[tactic(auto, using(spx_num::specs::Widths::fits_laws))]
fn exact(op: Op, m: i128, n: i128) -> Option<i128>
    ensures { result ≡ fitting (exact op m n) }
{
    checked(op, m, n).ok()
}

#[tactic(auto, using(spx_num::specs::Widths::fits_laws))]
fn quotient(m: i128, n: i128) -> Option<i128>
    ensures { result ≡ is.result_of op.Divide (Some m) (Some n) }
{
    if n == 0 { None } else { quot(m, n).ok() }
}

#[tactic(auto, using(spx_num::specs::Widths::fits_laws))]
fn modulus(m: i128, n: i128) -> Option<i128>
    ensures { result ≡ is.result_of op.Mod (Some m) (Some n) }
{
    if n == 0 { None } else { modulo(m, n).ok() }
}

#[tactic(auto, using(spx_num::specs::Widths::fits_laws))]
fn remainder(m: i128, n: i128) -> Option<i128>
    ensures { result ≡ is.result_of op.Rem (Some m) (Some n) }
{
    if n == 0 { None } else { rem(m, n).ok() }
}

#[tactic(auto, using(spx_num::specs::Widths::fits_laws))]
fn raised(m: i128, n: i128) -> Option<i128>
    ensures { result ≡ is.result_of op.Power (Some m) (Some n) }
{
    if n < 0 { None } else { power(m, n).ok() }
}

/// The position of a truth value, which 128 bits hold.
#[tactic(auto, using(spx_num::specs::Widths::fits_laws))]
fn position(value: bool) -> Option<i128>
    ensures { result ≡ fitting (is.truth value) }
{
    Some(truth(value))
}

/// The value of an operation, where it has one that 128 bits hold.
fn operated(op: InfixOp, m: i128, n: i128) -> Option<i128>
    ensures { result ≡ is.result_of op (Some m) (Some n) }
{
    match op {
        InfixOp::Add => exact(Op::Add, m, n),
        InfixOp::Subtract => exact(Op::Sub, m, n),
        InfixOp::Multiply => exact(Op::Mul, m, n),
        InfixOp::Divide => quotient(m, n),
        InfixOp::Mod => modulus(m, n),
        InfixOp::Rem => remainder(m, n),
        InfixOp::Power => raised(m, n),
        InfixOp::Equal => position(m == n),
        InfixOp::NotEqual => position(m != n),
        InfixOp::Less => position(m < n),
        InfixOp::LessOrEqual => position(m <= n),
        InfixOp::Greater => position(m > n),
        InfixOp::GreaterOrEqual => position(m >= n),
        InfixOp::And => position(is_true(m) && is_true(n)),
        InfixOp::Or => position(is_true(m) || is_true(n)),
        InfixOp::Xor => position(m != n),
        InfixOp::AndThen => position(is_true(m) && is_true(n)),
        InfixOp::OrElse => position(is_true(m) || is_true(n)),
        InfixOp::Implies => position(!is_true(m) || is_true(n)),
        InfixOp::Equivalent => position(m == n),
    }
}

#[tactic(auto, using(spx_num::specs::Widths::fits_laws))]
fn absolute(n: i128) -> Option<i128>
    ensures { result ≡ fitting (is.signed sign.Abs n) }
{
    if n < 0 { n.checked_neg() } else { Some(n) }
}

/// The value of an operation on one operand, where 128 bits hold it.
#[tactic(auto, using(spx_num::specs::Widths::fits_laws))]
fn signed(op: PrefixOp, n: i128) -> Option<i128>
    ensures { result ≡ fitting (is.signed op n) }
{
    match op {
        PrefixOp::Plus => Some(n),
        PrefixOp::Minus => n.checked_neg(),
        PrefixOp::Abs => absolute(n),
        PrefixOp::Not => position(!is_true(n)),
    }
}

/// The value of an operation, where both operands are static, the operation has a value and 128 bits hold it.
pub fn result_of(op: InfixOp, left: Option<i128>, right: Option<i128>) -> Option<i128>
    ensures { result ≡ is.result_of op left right }
{
    match (left, right) {
        (Some(m), Some(n)) => operated(op, m, n),
        _ => None,
    }
}

/// The value of an operation on one operand, where the operand is static and 128 bits hold it.
pub fn signed_result(op: PrefixOp, operand: Option<i128>) -> Option<i128>
    ensures { result ≡ is.signed_result op operand }
{
    match operand {
        Some(n) => signed(op, n),
        None => None,
    }
}

/// Whether there is a value, if the operand is static.
pub fn is_held(operand: Option<i128>, value: Option<i128>) -> bool
    ensures { result ≡ is.is_held operand value }
{
    !matches!((operand, value), (Some(_), None))
}

/// Whether there is a value, if both operands are static.
pub fn both_held(left: Option<i128>, right: Option<i128>, value: Option<i128>) -> bool
    ensures { result ≡ is.both_held left right value }
{
    match left {
        Some(_) => is_held(right, value),
        None => true,
    }
}

fn tested(op: MemberOp, within: bool) -> bool
    ensures { result ≡ is.tested op within }
{
    match op {
        MemberOp::In => within,
        MemberOp::NotIn(_) => !within,
    }
}

/// The value of a membership test, where all three are static.
pub fn member_value(
    op: MemberOp,
    value: Option<i128>,
    first: Option<i128>,
    last: Option<i128>,
) -> Option<i128>
    ensures { result ≡ is.member_value op value first last }
{
    match (value, first, last) {
        (Some(n), Some(first), Some(last)) => {
            Some(truth(tested(op, is_between(first, last, n))))
        }
        _ => None,
    }
}

/// The values of a subtype.
pub fn span_of(subtype: Subtype) -> Span
    ensures { result ≡ is.span_of subtype }
{
    Span {
        first: subtype.first,
        last: subtype.last,
    }
}

/// The values of a base type.
pub fn span_of_base(base: BaseType) -> Span
    ensures { result ≡ is.span_of_type (Of base) }
{
    Span {
        first: base.first,
        last: base.last,
    }
}

/// The values of a type.
pub fn span_of_type(of: ExprType) -> Span
    ensures { result ≡ is.span_of_type of }
{
    match of {
        ExprType::Universal => span_of(UNIVERSAL),
        ExprType::Of(base) => span_of_base(base),
    }
}

/// Whether the value of an operand is one of the type that a function asks for, if it is static.
pub fn lies_in_operand(operand: OperandType, value: Option<i128>) -> bool
    ensures { result ≡ is.lies_in_operand operand value }
{
    match operand {
        OperandType::AnyNumber => true,
        OperandType::ValueOf(base) => lies_in(ExprType::Of(base), value),
    }
}

/// Whether a value lies where the result of a function must, if it is static.
pub fn lies_within(bounds: Option<Span>, value: Option<i128>) -> bool
    ensures { result ≡ is.lies_within bounds value }
{
    match bounds {
        Some(span) => lies_between(span.first, span.last, value),
        None => true,
    }
}

#[tactic(auto, using(spx_num::specs::Widths::fits_laws))]
fn shifted(shift: Shift, n: i128) -> Option<i128>
    ensures { result ≡ fitting (is.shifted shift n) }
{
    match shift {
        Shift::Same => Some(n),
        Shift::Next => exact(Op::Add, n, 1),
        Shift::Previous => exact(Op::Sub, n, 1),
    }
}

/// What a function makes of a value, where the operand is static and 128 bits hold it.
pub fn shifted_value(shift: Shift, operand: Option<i128>) -> Option<i128>
    ensures { result ≡ is.shifted_value shift operand }
{
    match operand {
        Some(n) => shifted(shift, n),
        None => None,
    }
}
