// A term in the place of a name.
ghost use Rattle.std.specs.Prelude.{◌≡◌, ◌↔◌, ◌+◌, IfOk, IsTrue};
ghost use Rattle.spx_term.specs.declared.term.Term.TheVariants as term;
ghost use Rattle.spx_term.specs.Equality.{same_name};
ghost use Rattle.spx_term.specs.Substitution as spec;

use crate::{
    BoundVariable, MOST_LEVELS, Name, Symbol, Term, TernaryOp, boxed_binary, boxed_blank,
    boxed_infix, boxed_number, boxed_prefix, boxed_ternary, boxed_truth, boxed_unary,
    boxed_variable,
};
use sqlite_items::Boxed;
use std::alloc::{AllocError, Global};

/// The depth so many levels deeper. One past the greatest number is refused as where memory runs out, since no memory holds a term so deep.
fn deeper_by(depth: usize, levels: usize) -> Result<usize, AllocError>
    ensures { IfOk result (λ r. r ≡ depth + levels) }
{
    match depth.checked_add(levels) {
        Some(sum) => Ok(sum),
        None => Err(AllocError),
    }
}

fn deeper(bound: BoundVariable, levels: usize) -> Result<BoundVariable, AllocError>
    ensures { IfOk result (λ r. r ≡ spec.deeper levels bound) }
{
    let depth = deeper_by(bound.depth, levels)?;
    let variable = bound.variable;
    Ok(BoundVariable { depth, variable })
}

fn deeper_name(name: Name, levels: usize) -> Result<Name, AllocError>
    ensures { IfOk result (λ r. r ≡ spec.deeper_name levels name) }
{
    let sort = name.sort;
    match name.symbol {
        Symbol::Now(_) => Ok(name),
        Symbol::Entry(_) => Ok(name),
        Symbol::First(_) => Ok(name),
        Symbol::Last(_) => Ok(name),
        Symbol::New(_) => Ok(name),
        Symbol::Bound(bound) => {
            let symbol = Symbol::Bound(deeper(bound, levels)?);
            Ok(Name { symbol, sort })
        }
    }
}

fn deeper_op(op: TernaryOp, levels: usize) -> Result<TernaryOp, AllocError>
    ensures { IfOk result (λ r. r ≡ spec.deeper_op levels op) }
{
    match op {
        TernaryOp::Update(_) => Ok(op),
        TernaryOp::Quantified(quantifier, bound) => {
            let bound = deeper(bound, levels)?;
            Ok(TernaryOp::Quantified(quantifier, bound))
        }
    }
}

/// The term under so many more quantifiers. One of more than `MOST_LEVELS` levels is refused.
pub fn raised(alloc: Global, term: &Term, levels: usize) -> Result<Boxed<Term>, AllocError>
    ensures { IfOk result (λ r. r ≡ spec.raised levels term.now) }
{
    raise(alloc, term, levels, MOST_LEVELS)
}

/// The term under so many more quantifiers, in a box, so that a level of it takes little of the stack, which has room for so many levels.
#[cycle(raise)]
#[tactic(auto, using(crate::proofs::SubstitutionLaws::raised_forms))]
fn raise(alloc: Global, term: &Term, levels: usize, room: u32) -> Result<Boxed<Term>, AllocError>
    ensures { IfOk result (λ r. r ≡ spec.raised levels term.now) }
{
    if room == 0 {
        return Err(AllocError);
    }
    match term {
        Term::Number(value) => boxed_number(alloc, *value),
        Term::Truth(value) => boxed_truth(alloc, *value),
        Term::Variable(name) => raised_name(alloc, *name, levels),
        Term::Blank(id) => boxed_blank(alloc, *id),
        Term::Prefix(op, operand) => {
            let operand = raise(alloc, operand.get(), levels, room - 1)?;
            boxed_prefix(alloc, *op, operand)
        }
        Term::Infix(op, left, right) => {
            let left = raise(alloc, left.get(), levels, room - 1)?;
            let right = raise(alloc, right.get(), levels, room - 1)?;
            boxed_infix(alloc, *op, left, right)
        }
        Term::Unary(op, operand) => {
            let operand = raise(alloc, operand.get(), levels, room - 1)?;
            boxed_unary(alloc, *op.get(), operand)
        }
        Term::Binary(op, left, right) => {
            let left = raise(alloc, left.get(), levels, room - 1)?;
            let right = raise(alloc, right.get(), levels, room - 1)?;
            boxed_binary(alloc, *op.get(), left, right)
        }
        Term::Ternary(op, first, second, third) => {
            let first = raise(alloc, first.get(), levels, room - 1)?;
            let second = raise(alloc, second.get(), levels, room - 1)?;
            let third = raise(alloc, third.get(), levels, room - 1)?;
            raised_ternary(alloc, *op.get(), levels, first, second, third)
        }
    }
}

#[inline(never)]
fn raised_name(alloc: Global, name: Name, levels: usize) -> Result<Boxed<Term>, AllocError>
    ensures { IfOk result (λ r. r ≡ term.Variable (spec.deeper_name levels name)) }
{
    let name = deeper_name(name, levels)?;
    boxed_variable(alloc, name)
}

#[inline(never)]
fn raised_ternary(
    alloc: Global,
    op: TernaryOp,
    levels: usize,
    first: Boxed<Term>,
    second: Boxed<Term>,
    third: Boxed<Term>,
) -> Result<Boxed<Term>, AllocError>
    ensures { IfOk result (λ r. r ≡ term.Ternary (spec.deeper_op levels op) first second third) }
{
    let op = deeper_op(op, levels)?;
    boxed_ternary(alloc, op, first, second, third)
}

/// How many quantifiers an operation puts around its last part.
fn levels(op: TernaryOp) -> usize
    ensures { result ≡ spec.levels op }
{
    match op {
        TernaryOp::Update(_) => 0,
        TernaryOp::Quantified(_, _) => 1,
    }
}

fn equals(a: Name, b: Name) -> bool
    ensures { IsTrue result ↔ (a ≡ b) }
{
    a == b
}

#[tactic(auto, using(crate::proofs::Equality::same_laws))]
fn is_same(a: Name, b: Name) -> bool
    ensures equal { IsTrue result ↔ (a ≡ b) }
    ensures test { result ≡ same_name a b }
{
    equals(a, b)
}

/// The term in the place of a name, under so many quantifiers.
#[inline(never)]
#[tactic(auto, using(crate::proofs::SubstitutionLaws::put_forms))]
fn put_name(
    alloc: Global,
    name: Name,
    by: &Term,
    other: Name,
    depth: usize,
) -> Result<Boxed<Term>, AllocError>
    ensures { IfOk result (λ r. r ≡ spec.put_under depth name by.now (term.Variable other)) }
{
    if is_same(name, other) {
        return raised(alloc, by, depth);
    }
    boxed_variable(alloc, other)
}

/// The term with another one in the place of a name, where it stands under so many quantifiers, and the stack has room for so many levels.
#[cycle(put)]
#[tactic(auto, using(crate::proofs::SubstitutionLaws::put_forms))]
fn put(
    alloc: Global,
    name: Name,
    by: &Term,
    term: &Term,
    depth: usize,
    room: u32,
) -> Result<Boxed<Term>, AllocError>
    ensures { IfOk result (λ r. r ≡ spec.put_under depth name by.now term.now) }
{
    if room == 0 {
        return Err(AllocError);
    }
    match term {
        Term::Number(value) => boxed_number(alloc, *value),
        Term::Truth(value) => boxed_truth(alloc, *value),
        Term::Variable(other) => put_name(alloc, name, by, *other, depth),
        Term::Blank(id) => boxed_blank(alloc, *id),
        Term::Prefix(op, operand) => {
            let operand = put(alloc, name, by, operand.get(), depth, room - 1)?;
            boxed_prefix(alloc, *op, operand)
        }
        Term::Infix(op, left, right) => {
            let left = put(alloc, name, by, left.get(), depth, room - 1)?;
            let right = put(alloc, name, by, right.get(), depth, room - 1)?;
            boxed_infix(alloc, *op, left, right)
        }
        Term::Unary(op, operand) => {
            let operand = put(alloc, name, by, operand.get(), depth, room - 1)?;
            boxed_unary(alloc, *op.get(), operand)
        }
        Term::Binary(op, left, right) => {
            let left = put(alloc, name, by, left.get(), depth, room - 1)?;
            let right = put(alloc, name, by, right.get(), depth, room - 1)?;
            boxed_binary(alloc, *op.get(), left, right)
        }
        Term::Ternary(op, first, second, third) => {
            let first = put(alloc, name, by, first.get(), depth, room - 1)?;
            let second = put(alloc, name, by, second.get(), depth, room - 1)?;
            let inside = deeper_by(depth, levels(*op.get()))?;
            let third = put(alloc, name, by, third.get(), inside, room - 1)?;
            boxed_ternary(alloc, *op.get(), first, second, third)
        }
    }
}

/// The term with another one in the place of a name. Under quantifiers, those of the other one are so much deeper. Where one of the two has more than `MOST_LEVELS` levels, it is refused.
pub fn subst(alloc: Global, term: &Term, name: Name, by: &Term) -> Result<Term, AllocError>
    ensures { IfOk result (λ r. r ≡ spec.put name by.now term.now) }
{
    let result = put(alloc, name, by, term, 0, MOST_LEVELS)?;
    Ok(result.into_inner())
}
