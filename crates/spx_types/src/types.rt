// Types, and where expressions of a type fit (Ada 95 RM 3.4.1, 4.5).
ghost use Rattle.std.specs.Prelude.{◌≡◌};
ghost use Rattle.spx_core.specs.Types as is;

use spx_core::{BOOLEAN, BaseType, Class, ExprType, INTEGER, OperandType, TypeId};
use spx_tree::{InfixOp, PrefixOp};

/// The values are numbers, with arithmetic.
pub fn is_numeric(class: Class) -> bool
    ensures { result ≡ is.is_numeric class }
{
    matches!(class, Class::Integer)
}

/// The values are literals.
pub fn has_literals(class: Class) -> bool
    ensures { result ≡ is.has_literals class }
{
    matches!(class, Class::Enumeration)
}

/// The values are truth values.
fn has_truths(class: Class) -> bool
    ensures { result ≡ is.has_truths class }
{
    matches!(class, Class::Boolean)
}

/// Numbers stand for the values: a literal is its position.
pub fn has_numbers(class: Class) -> bool
    ensures { result ≡ is.has_numbers class }
{
    matches!(class, Class::Integer | Class::Enumeration)
}

/// The values have parts.
pub fn has_parts(class: Class) -> bool
    ensures { result ≡ is.has_parts class }
{
    matches!(class, Class::Composite)
}

fn same_class(class: Class, other: Class) -> bool
    ensures { result ≡ is.same_class class other }
{
    match class {
        Class::Integer => is_numeric(other),
        Class::Boolean => has_truths(other),
        Class::Enumeration => has_literals(other),
        Class::Composite => has_parts(other),
    }
}

fn same_base(a: BaseType, b: BaseType) -> bool
    ensures { result ≡ is.same_base a b }
{
    a.id.0 == b.id.0 && same_class(a.class, b.class)
}

/// Whether the values of a type have parts; those of universal expressions have none.
pub fn is_parted(of: ExprType) -> bool
    ensures { result ≡ is.is_parted of }
{
    match of {
        ExprType::Universal => false,
        ExprType::Of(base) => has_parts(base.class),
    }
}

/// Whether the type has parts, and stands at this position of the table.
pub fn is_type_at(id: TypeId, base: BaseType) -> bool
    ensures { result ≡ is.is_type_at id base }
{
    has_parts(base.class) && base.id.0 == id.0
}

/// Whether the type of an expression has parts, and stands at this position of the table.
pub fn is_typed_at(id: TypeId, of: ExprType) -> bool
    ensures { result ≡ is.is_typed_at id of }
{
    match of {
        ExprType::Universal => false,
        ExprType::Of(base) => is_type_at(id, base),
    }
}

/// Whether an expression of this type fits where the base type is needed.
pub fn is_of(base: BaseType, of: ExprType) -> bool
    ensures { result ≡ is.is_of base of }
{
    match of {
        ExprType::Universal => is_numeric(base.class),
        ExprType::Of(other) => same_base(base, other),
    }
}

/// Whether an expression of this type is a number.
pub fn is_number(of: ExprType) -> bool
    ensures { result ≡ is.is_number of }
{
    match of {
        ExprType::Universal => true,
        ExprType::Of(base) => is_numeric(base.class),
    }
}

/// Whether the values of this type have an order: all but truth values.
pub fn is_ordered(of: ExprType) -> bool
    ensures { result ≡ is.is_ordered of }
{
    match of {
        ExprType::Universal => true,
        ExprType::Of(base) => has_numbers(base.class),
    }
}

/// Whether an expression of this type is a truth value.
pub fn is_boolean(of: ExprType) -> bool
    ensures { result ≡ is.is_boolean of }
{
    match of {
        ExprType::Universal => false,
        ExprType::Of(base) => has_truths(base.class),
    }
}

/// Whether two operands are of one type.
fn meet(left: ExprType, right: ExprType) -> bool
    ensures { result ≡ is.meet left right }
{
    match left {
        ExprType::Universal => is_number(right),
        ExprType::Of(base) => is_of(base, right),
    }
}

/// The type that two operands have together: the one of the two that is not universal.
pub fn met(left: ExprType, right: ExprType) -> ExprType
    ensures { result ≡ is.met left right }
{
    match left {
        ExprType::Universal => right,
        ExprType::Of(_) => left,
    }
}

/// Whether an operator takes operands of these types.
pub fn operands_fit(op: InfixOp, left: ExprType, right: ExprType) -> bool
    ensures { result ≡ is.operands_fit op left right }
{
    match op {
        InfixOp::Power => is_number(left) && is_of(INTEGER.base, right),
        InfixOp::Equal | InfixOp::NotEqual => meet(left, right),
        InfixOp::Less | InfixOp::LessOrEqual | InfixOp::Greater | InfixOp::GreaterOrEqual =>
            is_ordered(left) && meet(left, right),
        InfixOp::And
        | InfixOp::Or
        | InfixOp::Xor
        | InfixOp::AndThen
        | InfixOp::OrElse
        | InfixOp::Implies
        | InfixOp::Equivalent => is_boolean(left) && is_boolean(right),
        _ => is_number(left) && meet(left, right),
    }
}

/// The type that the left operand has.
pub fn left_type(op: InfixOp, left: ExprType, right: ExprType) -> ExprType
    ensures { result ≡ is.left_type op left right }
{
    match op {
        InfixOp::Power => left,
        _ => met(left, right),
    }
}

/// The type that the right operand has.
pub fn right_type(op: InfixOp, left: ExprType, right: ExprType) -> ExprType
    ensures { result ≡ is.right_type op left right }
{
    match op {
        InfixOp::Power => ExprType::Of(INTEGER.base),
        _ => met(left, right),
    }
}

/// Whether an operator takes an operand of this type.
pub fn operand_fits(op: PrefixOp, operand: ExprType) -> bool
    ensures { result ≡ is.operand_fits op operand }
{
    match op {
        PrefixOp::Not => is_boolean(operand),
        PrefixOp::Plus | PrefixOp::Minus | PrefixOp::Abs => is_number(operand),
    }
}

/// Whether three operands are values of one type that has an order.
pub fn three_fit(first: ExprType, second: ExprType, third: ExprType) -> bool
    ensures { result ≡ is.three_fit first second third }
{
    is_ordered(first) && meet(first, second) && meet(met(first, second), third)
}

/// The type of an operation whose left operand has this type.
pub fn result_type(op: InfixOp, of: ExprType) -> ExprType
    ensures { result ≡ is.result_type op of }
{
    match op {
        InfixOp::Add
        | InfixOp::Subtract
        | InfixOp::Multiply
        | InfixOp::Divide
        | InfixOp::Mod
        | InfixOp::Rem
        | InfixOp::Power => of,
        _ => ExprType::Of(BOOLEAN.base),
    }
}

/// Whether a function takes an operand of this type.
pub fn is_taken(operand: OperandType, of: ExprType) -> bool
    ensures { result ≡ is.is_taken operand of }
{
    match operand {
        OperandType::AnyNumber => is_number(of),
        OperandType::ValueOf(base) => is_of(base, of),
    }
}

/// Whether an expression is of the type of a selector.
pub fn is_same_type(selector: ExprType, of: ExprType) -> bool
    ensures { result ≡ is.is_same_type selector of }
{
    match (selector, of) {
        (ExprType::Universal, ExprType::Universal) => true,
        (ExprType::Universal, ExprType::Of(_)) => false,
        (ExprType::Of(base), of) => is_of(base, of),
    }
}
