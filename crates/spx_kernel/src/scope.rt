// Terms under quantifiers, and the body of a quantifier with a term for its variable.
ghost use Rattle.std.specs.Prelude.{◌≡◌, ◌+◌, ◌∷◌, [], ◌++◌, IfOk};
ghost use Rattle.spx_term.specs.declared.term.Term.TheVariants as term;
ghost use Rattle.spx_kernel.specs.Quantifiers.{name_scoped, same_bound, is_bound_in, is_scoped, stands_alone, shallower, opened_name, opened_under, opened};
ghost use Rattle.spx_term.specs.Substitution.{levels};
ghost use Rattle.spx_kernel.specs.Scopes.{body_scoped, shallower_op};
ghost use Rattle.spx_kernel.specs.Steps.{may_stand};

use crate::names::{is_over, is_same};
use spx_term::{
    BoundVariable, MOST_LEVELS, Name, Sequent, Sort, Symbol, Term, TernaryOp, boxed_binary,
    boxed_blank, boxed_infix, boxed_number, boxed_prefix, boxed_ternary, boxed_truth, boxed_unary,
    boxed_variable, raised,
};
use sqlite_items::{Boxed, Items};
use std::alloc::{AllocError, Global};

/// Whether one of the quantifiers has this variable.
fn is_bound_in(scope: &[BoundVariable], bound: BoundVariable) -> bool
    ensures { result ≡ is_bound_in scope.now bound }
{
    scope.iter().any(|other| bound.depth == other.depth && bound.variable == other.variable)
}

/// Whether a name of a quantifier's variable is that of a quantifier around it.
fn name_scoped(name: Name, scope: &[BoundVariable]) -> bool
    ensures { result ≡ name_scoped name.symbol name scope.now }
{
    match name.symbol {
        Symbol::Bound(bound) => {
            let whole = Name {
                symbol: Symbol::Bound(bound),
                sort: Sort::Integer,
            };
            is_same(name, whole) && is_bound_in(scope, bound)
        }
        Symbol::Now(_) => true,
        Symbol::Entry(_) => true,
        Symbol::First(_) => true,
        Symbol::Last(_) => true,
        Symbol::New(_) => true,
    }
}

/// The variables of the quantifiers around the body of one more.
fn inner(
    alloc: Global,
    scope: &[BoundVariable],
    bound: BoundVariable,
) -> Result<Items<BoundVariable>, AllocError>
    ensures { IfOk result (λ r. r ≡ scope.now ++ bound ∷ []) }
{
    let mut inside = Items::from_slice(alloc, scope)?;
    inside.push(bound)?;
    Ok(inside)
}

/// Whether a term is scoped under these quantifiers, where the stack has room for so many levels.
#[cycle(is_scoped)]
#[tactic(auto, using(crate::proofs::ScopeForms::scoped_forms))]
fn is_scoped(
    alloc: Global,
    term: &Term,
    scope: &[BoundVariable],
    room: u32,
) -> Result<bool, AllocError>
    ensures { IfOk result (λ yes. yes ≡ is_scoped scope.now term.now) }
{
    if room == 0 {
        return Err(AllocError);
    }
    match term {
        Term::Number(_) => Ok(true),
        Term::Truth(_) => Ok(true),
        Term::Variable(name) => Ok(name_scoped(*name, scope)),
        Term::Blank(_) => Ok(true),
        Term::Prefix(_, operand) => is_scoped(alloc, operand.get(), scope, room - 1),
        Term::Infix(_, left, right) => {
            let first = is_scoped(alloc, left.get(), scope, room - 1)?;
            let second = is_scoped(alloc, right.get(), scope, room - 1)?;
            Ok(first && second)
        }
        Term::Unary(_, operand) => is_scoped(alloc, operand.get(), scope, room - 1),
        Term::Binary(_, left, right) => {
            let first = is_scoped(alloc, left.get(), scope, room - 1)?;
            let second = is_scoped(alloc, right.get(), scope, room - 1)?;
            Ok(first && second)
        }
        Term::Ternary(op, first, second, third) => {
            let first = is_scoped(alloc, first.get(), scope, room - 1)?;
            let second = is_scoped(alloc, second.get(), scope, room - 1)?;
            let third = body_scoped(alloc, third.get(), *op.get(), scope, room - 1)?;
            Ok(first && (second && third))
        }
    }
}

/// Whether the last part of an operation is scoped, and a quantifier numbered by its depth.
#[cycle(is_scoped)]
fn body_scoped(
    alloc: Global,
    body: &Term,
    op: TernaryOp,
    scope: &[BoundVariable],
    room: u32,
) -> Result<bool, AllocError>
    ensures { IfOk result (λ yes. yes ≡ body_scoped op scope.now body.now) }
{
    match op {
        TernaryOp::Update(_) => is_scoped(alloc, body, scope, room),
        TernaryOp::Quantified(_, bound) => {
            let inside = inner(alloc, scope, bound)?;
            let below = is_scoped(alloc, body, inside.as_slice(), room)?;
            Ok(bound.depth == inside.len() && below)
        }
    }
}

/// Whether a term is scoped under no quantifier.
pub(crate) fn stands_alone(alloc: Global, term: &Term) -> Result<bool, AllocError>
    ensures { IfOk result (λ yes. yes ≡ stands_alone term.now) }
{
    is_scoped(alloc, term, &[], MOST_LEVELS)
}

/// Whether a term is one over the names of a sequent, which stands alone.
pub(crate) fn may_stand(alloc: Global, sequent: &Sequent, term: &Term) -> Result<bool, AllocError>
    ensures { IfOk result (λ yes. yes ≡ may_stand sequent.now term.now) }
{
    let alone = stands_alone(alloc, term)?;
    let over = is_over(sequent, term)?;
    Ok(alone && over)
}

// ---- a term for the variable of a quantifier

/// A variable of a quantifier one level less deep.
fn shallower(bound: BoundVariable) -> BoundVariable
    ensures { result ≡ shallower bound }
{
    BoundVariable {
        depth: bound.depth.saturating_sub(1),
        variable: bound.variable,
    }
}

/// The name of a variable one level less deep.
#[inline(never)]
fn shallower_name(
    alloc: Global,
    bound: BoundVariable,
    sort: Sort,
) -> Result<Boxed<Term>, AllocError>
    ensures { IfOk result (λ r. r ≡ term.Variable (record { symbol = Symbol.Bound (shallower bound); sort = sort })) }
{
    let symbol = Symbol::Bound(shallower(bound));
    boxed_variable(alloc, Name { symbol, sort })
}

/// What a name becomes under so many quantifiers, where the first variable becomes the term.
#[inline(never)]
fn opened_name(
    alloc: Global,
    by: &Term,
    name: Name,
    depth: usize,
) -> Result<Boxed<Term>, AllocError>
    ensures { IfOk result (λ r. r ≡ opened_name by.now name.symbol name depth) }
{
    match name.symbol {
        Symbol::Bound(bound) => {
            if bound.depth == 1 {
                return raised(alloc, by, depth);
            }
            shallower_name(alloc, bound, name.sort)
        }
        Symbol::Now(_) => boxed_variable(alloc, name),
        Symbol::Entry(_) => boxed_variable(alloc, name),
        Symbol::First(_) => boxed_variable(alloc, name),
        Symbol::Last(_) => boxed_variable(alloc, name),
        Symbol::New(_) => boxed_variable(alloc, name),
    }
}

/// How many quantifiers are around the last part of an operation under so many. One past the greatest number is refused as where
/// memory runs out, since no memory holds a term so deep.
pub(crate) fn depth_in(op: TernaryOp, depth: usize) -> Result<usize, AllocError>
    ensures { IfOk result (λ r. r ≡ depth + levels op) }
{
    match op {
        TernaryOp::Update(_) => Ok(depth),
        TernaryOp::Quantified(_, _) => match depth.checked_add(1) {
            Some(sum) => Ok(sum),
            None => Err(AllocError),
        },
    }
}

/// An operation whose quantifier is one level less deep.
#[inline(never)]
fn opened_ternary(
    alloc: Global,
    op: TernaryOp,
    first: Boxed<Term>,
    second: Boxed<Term>,
    third: Boxed<Term>,
) -> Result<Boxed<Term>, AllocError>
    ensures { IfOk result (λ r. r ≡ term.Ternary (shallower_op op) first second third) }
{
    match op {
        TernaryOp::Update(_) => boxed_ternary(alloc, op, first, second, third),
        TernaryOp::Quantified(quantifier, bound) => {
            let op = TernaryOp::Quantified(quantifier, shallower(bound));
            boxed_ternary(alloc, op, first, second, third)
        }
    }
}

/// The term with another one for the first variable, where it stands under so many quantifiers, and the stack has room for so
/// many levels.
#[cycle(open)]
#[tactic(auto, using(crate::proofs::ScopeForms::opened_forms))]
fn open(
    alloc: Global,
    by: &Term,
    term: &Term,
    depth: usize,
    room: u32,
) -> Result<Boxed<Term>, AllocError>
    ensures { IfOk result (λ r. r ≡ opened_under depth by.now term.now) }
{
    if room == 0 {
        return Err(AllocError);
    }
    match term {
        Term::Number(value) => boxed_number(alloc, *value),
        Term::Truth(value) => boxed_truth(alloc, *value),
        Term::Variable(name) => opened_name(alloc, by, *name, depth),
        Term::Blank(id) => boxed_blank(alloc, *id),
        Term::Prefix(op, operand) => {
            let operand = open(alloc, by, operand.get(), depth, room - 1)?;
            boxed_prefix(alloc, *op, operand)
        }
        Term::Infix(op, left, right) => {
            let left = open(alloc, by, left.get(), depth, room - 1)?;
            let right = open(alloc, by, right.get(), depth, room - 1)?;
            boxed_infix(alloc, *op, left, right)
        }
        Term::Unary(op, operand) => {
            let operand = open(alloc, by, operand.get(), depth, room - 1)?;
            boxed_unary(alloc, *op.get(), operand)
        }
        Term::Binary(op, left, right) => {
            let left = open(alloc, by, left.get(), depth, room - 1)?;
            let right = open(alloc, by, right.get(), depth, room - 1)?;
            boxed_binary(alloc, *op.get(), left, right)
        }
        Term::Ternary(op, first, second, third) => {
            let first = open(alloc, by, first.get(), depth, room - 1)?;
            let second = open(alloc, by, second.get(), depth, room - 1)?;
            let inside = depth_in(*op.get(), depth)?;
            let third = open(alloc, by, third.get(), inside, room - 1)?;
            opened_ternary(alloc, *op.get(), first, second, third)
        }
    }
}

/// The body of a quantifier with a term for its variable.
pub(crate) fn opened(alloc: Global, by: &Term, body: &Term) -> Result<Boxed<Term>, AllocError>
    ensures { IfOk result (λ r. r ≡ opened by.now body.now) }
{
    open(alloc, by, body, 0, MOST_LEVELS)
}
