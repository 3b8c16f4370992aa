// Terms in boxes. None of these functions stands in its callers, so that a level of a call on a term takes little of the stack.
ghost use Rattle.std.specs.Prelude.{◌≡◌, IfOk};
ghost use Rattle.spx_term.specs.declared.term.Term.TheVariants as term;

use crate::{BinaryOp, Name, Term, TermOp, TermPrefix, TernaryOp, UnaryOp};
use sqlite_items::Boxed;
use std::alloc::{AllocError, Global};

/// The literal of a number.
#[inline(never)]
pub fn boxed_number(alloc: Global, value: i128) -> Result<Boxed<Term>, AllocError>
    ensures { IfOk result (λ r. r ≡ term.Number value) }
{
    Boxed::new(alloc, Term::Number(value))
}

/// The literal of a truth value.
#[inline(never)]
pub fn boxed_truth(alloc: Global, value: bool) -> Result<Boxed<Term>, AllocError>
    ensures { IfOk result (λ r. r ≡ term.Truth value) }
{
    Boxed::new(alloc, Term::Truth(value))
}

/// The term of a name.
#[inline(never)]
pub fn boxed_variable(alloc: Global, name: Name) -> Result<Boxed<Term>, AllocError>
    ensures { IfOk result (λ r. r ≡ term.Variable name) }
{
    Boxed::new(alloc, Term::Variable(name))
}

/// The first value of the composite type at a position.
#[inline(never)]
pub fn boxed_blank(alloc: Global, id: usize) -> Result<Boxed<Term>, AllocError>
    ensures { IfOk result (λ r. r ≡ term.Blank id) }
{
    Boxed::new(alloc, Term::Blank(id))
}

/// The term of one operand.
#[inline(never)]
pub fn boxed_prefix(
    alloc: Global,
    op: TermPrefix,
    operand: Boxed<Term>,
) -> Result<Boxed<Term>, AllocError>
    ensures { IfOk result (λ r. r ≡ term.Prefix op operand) }
{
    Boxed::new(alloc, Term::Prefix(op, operand))
}

/// The term of two operands.
#[inline(never)]
pub fn boxed_infix(
    alloc: Global,
    op: TermOp,
    left: Boxed<Term>,
    right: Boxed<Term>,
) -> Result<Boxed<Term>, AllocError>
    ensures { IfOk result (λ r. r ≡ term.Infix op left right) }
{
    Boxed::new(alloc, Term::Infix(op, left, right))
}

/// The operation on one term.
#[inline(never)]
pub fn boxed_unary(
    alloc: Global,
    op: UnaryOp,
    operand: Boxed<Term>,
) -> Result<Boxed<Term>, AllocError>
    ensures { IfOk result (λ r. r ≡ term.Unary op operand) }
{
    let op = Boxed::new(alloc, op)?;
    Boxed::new(alloc, Term::Unary(op, operand))
}

/// The operation on a composite value and another term.
#[inline(never)]
pub fn boxed_binary(
    alloc: Global,
    op: BinaryOp,
    left: Boxed<Term>,
    right: Boxed<Term>,
) -> Result<Boxed<Term>, AllocError>
    ensures { IfOk result (λ r. r ≡ term.Binary op left right) }
{
    let op = Boxed::new(alloc, op)?;
    Boxed::new(alloc, Term::Binary(op, left, right))
}

/// The operation on three terms.
#[inline(never)]
pub fn boxed_ternary(
    alloc: Global,
    op: TernaryOp,
    first: Boxed<Term>,
    second: Boxed<Term>,
    third: Boxed<Term>,
) -> Result<Boxed<Term>, AllocError>
    ensures { IfOk result (λ r. r ≡ term.Ternary op first second third) }
{
    let op = Boxed::new(alloc, op)?;
    Boxed::new(alloc, Term::Ternary(op, first, second, third))
}
