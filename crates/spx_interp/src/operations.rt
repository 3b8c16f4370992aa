// Operations on values. What 128 bits do not hold is missing.
ghost use Rattle.std.specs.Prelude.{◌≡◌, ◌&&◌, Some, int_le, option_map};
ghost use Rattle.spx_term.specs.Meaning.{as_number, same_value};
ghost use Rattle.spx_core.specs.Judged.{application};
ghost use Rattle.spx_term.specs.declared.value.Value.TheVariants as value;
ghost use Rattle.spx_meaning.specs.Evaluation.{applied, applied_sign, mapped_value, member, moved};
ghost use Rattle.spx_meaning.specs.Bits.{held};

use crate::numbers::{absolute, exact, modulus, quotient, raised, remainder};
use crate::operand::Operand;
use spx_core::{CoreFunction, Shift};
use spx_meaning::{Value, is_same};
use spx_num::Op;
use spx_tree::{InfixOp, MemberOp, PrefixOp};
use spx_types::application;

/// A number as a value.
fn number<'a>(number: Option<i128>) -> Option<Operand<'a>>
    ensures { result ≡ option_map value.Number number }
{
    match number {
        Some(number) => Some(Operand::number(number)),
        None => None,
    }
}

/// A truth value, which is always there.
fn truth<'a>(truth: bool) -> Option<Operand<'a>>
    ensures { result ≡ Some (value.Truth truth) }
{
    Some(Operand::truth(truth))
}

/// The 128 bits of a number in a value hold it.
fn is_held(value: &Value)
    ensures { held value.now ≡ Some value.now }
{
    match value {
        Value::Number(number) => {
            let _number = *number;
        }
        Value::Truth(_) => {}
        Value::Elements(_, _) => {}
        Value::Fields(_) => {}
    }
}

/// A value, which 128 bits hold.
fn given<'a>(operand: Operand<'a>) -> Option<Operand<'a>>
    ensures { result ≡ held operand.entry }
{
    is_held(operand.as_value());
    Some(operand)
}

/// Whether two values are equal.
fn are_same(left: &Operand, right: &Operand) -> bool
    ensures { result ≡ same_value left.now right.now }
{
    is_same(left.as_value(), right.as_value())
}

/// The value of an operation.
#[tactic(auto, using(crate::proofs::BitLaws::operation_laws))]
pub(crate) fn applied<'a>(op: InfixOp, left: &Operand, right: &Operand) -> Option<Operand<'a>>
    ensures { result ≡ held (applied op left.now right.now) }
{
    let (m, n) = (left.as_number(), right.as_number());
    let (a, b) = (left.as_truth(), right.as_truth());
    match op {
        InfixOp::Add => number(exact(Op::Add, m, n)),
        InfixOp::Subtract => number(exact(Op::Sub, m, n)),
        InfixOp::Multiply => number(exact(Op::Mul, m, n)),
        InfixOp::Divide => number(quotient(m, n)),
        InfixOp::Mod => Some(Operand::number(modulus(m, n))),
        InfixOp::Rem => Some(Operand::number(remainder(m, n))),
        InfixOp::Power => number(raised(m, n)),
        InfixOp::Equal => truth(are_same(left, right)),
        InfixOp::NotEqual => truth(!are_same(left, right)),
        InfixOp::Less => truth(m < n),
        InfixOp::LessOrEqual => truth(m <= n),
        InfixOp::Greater => truth(m > n),
        InfixOp::GreaterOrEqual => truth(m >= n),
        InfixOp::And => truth(a && b),
        InfixOp::Or => truth(a || b),
        InfixOp::Xor => truth(!are_same(left, right)),
        InfixOp::AndThen => truth(a && b),
        InfixOp::OrElse => truth(a || b),
        InfixOp::Implies => truth(!a || b),
        InfixOp::Equivalent => truth(a == b),
    }
}

/// The value of an operation on one operand.
#[tactic(auto, using(crate::proofs::BitLaws::operation_laws))]
pub(crate) fn signed<'a>(op: PrefixOp, operand: Operand<'a>) -> Option<Operand<'a>>
    ensures { result ≡ held (applied_sign op operand.entry) }
{
    match op {
        PrefixOp::Plus => given(operand),
        PrefixOp::Minus => number(exact(Op::Sub, 0, operand.as_number())),
        PrefixOp::Abs => number(absolute(operand.as_number())),
        PrefixOp::Not => truth(!operand.as_truth()),
    }
}

/// Whether a number lies between two others.
fn lies_between(tested: &Operand, low: &Operand, high: &Operand) -> bool
    ensures { result ≡ (int_le (as_number low.now) (as_number tested.now) && int_le (as_number tested.now) (as_number high.now)) }
{
    low.as_number() <= tested.as_number() && tested.as_number() <= high.as_number()
}

/// The value of a membership test.
#[tactic(auto, using(crate::proofs::BitLaws::operation_laws))]
pub(crate) fn member<'a>(
    op: MemberOp,
    tested: &Operand,
    low: &Operand,
    high: &Operand,
) -> Operand<'a>
    ensures { result ≡ member op tested.now low.now high.now }
{
    let within = lies_between(tested, low, high);
    match op {
        MemberOp::In => Operand::truth(within),
        MemberOp::NotIn(_) => Operand::truth(!within),
    }
}

/// The value itself, or the position after it or before it.
#[tactic(auto, using(crate::proofs::BitLaws::operation_laws))]
pub(crate) fn moved<'a>(shift: Shift, operand: Operand<'a>) -> Option<Operand<'a>>
    ensures { result ≡ held (moved shift operand.entry) }
{
    match shift {
        Shift::Same => given(operand),
        Shift::Next => applied(InfixOp::Add, &operand, &Operand::number(1)),
        Shift::Previous => applied(InfixOp::Subtract, &operand, &Operand::number(1)),
    }
}

/// The result of a function. One that breaks a rule gives the operand.
#[tactic(auto, using(crate::proofs::BitLaws::operation_laws))]
pub(crate) fn mapped<'a>(function: &CoreFunction, operand: Operand<'a>) -> Option<Operand<'a>>
    ensures { result ≡ held (mapped_value (application function.now) operand.entry) }
{
    match application(function) {
        Ok(mapping) => moved(mapping.shift, operand),
        Err(_) => given(operand),
    }
}
