// Which type an operand meets, and which one it takes (Ada 95 RM 3.4.1, 4.5, 4.6).
ghost use Rattle.std.specs.Prelude.{◌≡◌};
ghost use Rattle.spx_core.specs.Contexts as rules;
ghost use Rattle.spx_core.specs.Judged.{judged};

use spx_core::{BaseType, Breach, CoreExpr, Entity, ExprType, FunctionForm, INTEGER, Typing};
use spx_tree::InfixOp;
use spx_types::{is_numeric, judge, met, operands_fit, right_type, three_fit};

/// What an expression is judged to be.
type Judged = Result<Typing, Breach>;

fn is_universal(of: ExprType) -> bool
    ensures { result ≡ rules.is_universal of }
{
    match of {
        ExprType::Universal => true,
        ExprType::Of(_) => false,
    }
}

/// Whether an expression is universal and not static.
fn is_open(expr: Judged) -> bool
    ensures { result ≡ rules.is_open expr }
{
    match expr {
        Ok(typing) => is_universal(typing.of) && typing.value.is_none(),
        Err(_) => false,
    }
}

/// Whether an expression is static.
pub fn is_static(expr: Judged) -> bool
    ensures { result ≡ rules.is_static expr }
{
    match expr {
        Ok(typing) => typing.value.is_some(),
        Err(_) => false,
    }
}

/// The type that an expression takes where it meets this one.
pub fn taken(of: ExprType, expr: Judged) -> Option<BaseType>
    ensures { result ≡ rules.taken of expr }
{
    match of {
        ExprType::Of(base) if is_numeric(base.class) && is_open(expr) => Some(base),
        ExprType::Of(_) | ExprType::Universal => None,
    }
}

fn or_integer(of: ExprType) -> ExprType
    ensures { result ≡ rules.or_integer of }
{
    match of {
        ExprType::Universal => ExprType::Of(INTEGER.base),
        ExprType::Of(base) => ExprType::Of(base),
    }
}

fn compares(op: InfixOp) -> bool
    ensures { result ≡ rules.compares op }
{
    match op {
        InfixOp::Equal
        | InfixOp::NotEqual
        | InfixOp::Less
        | InfixOp::LessOrEqual
        | InfixOp::Greater
        | InfixOp::GreaterOrEqual => true,
        _ => false,
    }
}

fn met_in(op: InfixOp, left: ExprType, right: ExprType) -> ExprType
    ensures { result ≡ rules.met_in op left right }
{
    if compares(op) {
        or_integer(met(left, right))
    } else {
        right_type(op, left, right)
    }
}

/// The type that operands meet in each other.
fn met_by(op: InfixOp, left: Judged, right: Judged) -> ExprType
    ensures { result ≡ rules.met_by op left right }
{
    match (left, right) {
        (Ok(left), Ok(right)) if operands_fit(op, left.of, right.of) => {
            met_in(op, left.of, right.of)
        }
        _ => ExprType::Universal,
    }
}

fn met_in_range(tested: Judged, low: Judged, high: Judged) -> ExprType
    ensures { result ≡ rules.met_in_range tested low high }
{
    match (tested, low, high) {
        (Ok(tested), Ok(low), Ok(high)) if three_fit(tested.of, low.of, high.of) => {
            or_integer(met(met(tested.of, low.of), high.of))
        }
        _ => ExprType::Universal,
    }
}

/// The type of what a name denotes: of a type itself, of a variable and of a constant.
pub fn type_given(denoted: Option<Entity>) -> ExprType
    ensures { result ≡ rules.type_given denoted }
{
    match denoted {
        Some(Entity::TypeName(subtype)) => ExprType::Of(subtype.base),
        Some(Entity::Variable(_, object)) => ExprType::Of(object.subtype.base),
        Some(Entity::Constant(subtype, _)) => ExprType::Of(subtype.base),
        _ => ExprType::Universal,
    }
}

/// The type that the operand of a function meets, whose name denotes this.
pub fn met_by_operand(form: &FunctionForm, denoted: Option<Entity>) -> ExprType
    ensures { result ≡ rules.met_by_operand form.now denoted }
{
    match form {
        FunctionForm::Attribute(_) => ExprType::Of(INTEGER.base),
        FunctionForm::Simple | FunctionForm::Qualified => type_given(denoted),
    }
}

fn left_takes(given: Option<BaseType>, op: InfixOp, left: Judged, right: Judged) -> Option<BaseType>
    ensures { result ≡ rules.left_takes given op left right }
{
    match (given, op) {
        (Some(base), _) => Some(base),
        (None, InfixOp::Power) => None,
        (None, _) => taken(met_by(op, left, right), left),
    }
}

fn right_takes(
    given: Option<BaseType>,
    op: InfixOp,
    left: Judged,
    right: Judged,
) -> Option<BaseType>
    ensures { result ≡ rules.right_takes given op left right }
{
    match (given, op) {
        (None, _) => taken(met_by(op, left, right), right),
        (Some(_), InfixOp::Power) => taken(met_by(op, left, right), right),
        (Some(base), _) => Some(base),
    }
}

/// The types that both operands take in an operation that takes this type.
pub fn operands_take(
    given: Option<BaseType>,
    op: InfixOp,
    left: &CoreExpr,
    right: &CoreExpr,
) -> (Option<BaseType>, Option<BaseType>)
    ensures { result ≡ (rules.left_takes given op (judged left.now) (judged right.now), rules.right_takes given op (judged left.now) (judged right.now)) }
{
    let (left, right) = (judge(left), judge(right));
    (
        left_takes(given, op, left, right),
        right_takes(given, op, left, right),
    )
}

/// The type that the operands of a test for a range meet.
pub fn range_meets(tested: &CoreExpr, low: &CoreExpr, high: &CoreExpr) -> ExprType
    ensures { result ≡ rules.met_in_range (judged tested.now) (judged low.now) (judged high.now) }
{
    met_in_range(judge(tested), judge(low), judge(high))
}
