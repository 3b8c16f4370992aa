// The values and the base types of expressions.
ghost use Rattle.std.specs.Prelude.{◌≡◌};
ghost use Rattle.spx_meaning.specs.Literals.{base_in, base_of, literal, static_in, value_of};

use spx_core::{BaseType, Class, CoreExpr, ExprType, UNIVERSAL, variable_of};
use spx_term::Scalar;
use spx_types::{is_parted, judge};

/// A static value of a type. That of a Boolean type is a position.
fn value_of(of: ExprType, value: i128) -> Scalar
    ensures { result ≡ value_of of value }
{
    match of {
        ExprType::Universal => Scalar::number(value),
        ExprType::Of(base) => match base.class {
            Class::Integer | Class::Enumeration | Class::Composite => Scalar::number(value),
            Class::Boolean => Scalar::truth(value != 0),
        },
    }
}

/// The static value of an expression of a type; a type whose values have parts has no literals.
fn static_in(of: ExprType, value: Option<i128>) -> Option<Scalar>
    ensures { result ≡ static_in of value }
{
    if is_parted(of) {
        None
    } else {
        value.map(|value| value_of(of, value))
    }
}

fn base_in(of: ExprType) -> BaseType
    ensures { result ≡ base_in of }
{
    match of {
        ExprType::Universal => UNIVERSAL.base,
        ExprType::Of(base) => base,
    }
}

/// The value of an expression that is judged to be static and to break no rule.
fn judged_literal(expr: &CoreExpr) -> Option<Scalar>
    ensures { result ≡ literal expr.now }
{
    match judge(expr) {
        Ok(typing) => static_in(typing.of, typing.value),
        Err(_) => None,
    }
}

/// The value of a static expression that breaks no rule.
pub fn literal(expr: &CoreExpr) -> Option<Scalar>
    ensures { result ≡ literal expr.now }
{
    match expr {
        // Most names denote variables, which have no value before a run.
        CoreExpr::Name(name) if variable_of(name.entity).is_some() => None,
        _ => judged_literal(expr),
    }
}

/// The base type of an expression, whose range the results of operations must lie in.
pub fn base_of(expr: &CoreExpr) -> BaseType
    ensures { result ≡ base_of expr.now }
{
    match judge(expr) {
        Ok(typing) => base_in(typing.of),
        Err(_) => UNIVERSAL.base,
    }
}
