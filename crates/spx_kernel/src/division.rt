// The step on divisions.
ghost use Rattle.std.specs.Prelude.{◌≡◌, None, IfOk, take, drop};
ghost use Rattle.spx_term.specs.declared.condition.Sequent.{Sequent};
ghost use Rattle.spx_term.specs.declared.term.TermOp.TheVariants as op;
ghost use Rattle.spx_term.specs.declared.term.TermPrefix.TheVariants as sign;
ghost use Rattle.spx_term.specs.declared.term.Term.TheVariants as term;
ghost use Rattle.spx_kernel.specs.declared.change.Changes.TheVariants as changes;
ghost use Rattle.spx_kernel.specs.Changes.{Leaves, change_goal};
ghost use Rattle.spx_kernel.specs.Divisions.{zero_term, division_facts, divides, division};
ghost use Rattle.spx_kernel.specs.Steps.{div_by};

use crate::StepFault;
use crate::change::{Change, Changes, boxed_copy, goal};
use crate::logic::operation;
use spx_term::{Term, TermOp, TermPrefix, boxed_infix, boxed_number, boxed_prefix};
use sqlite_items::{Boxed, Items};
use std::alloc::{AllocError, Global};

/// A term against 0.
fn against_zero(alloc: Global, op: TermOp, left: Boxed<Term>) -> Result<Boxed<Term>, AllocError>
    ensures { IfOk result (λ t. t ≡ term.Infix op left zero_term) }
{
    let zero = boxed_number(alloc, 0)?;
    boxed_infix(alloc, op, left, zero)
}

/// A copy of a term against 0.
fn copy_against_zero(alloc: Global, op: TermOp, left: &Term) -> Result<Boxed<Term>, AllocError>
    ensures { IfOk result (λ t. t ≡ term.Infix op left.now zero_term) }
{
    let copy = boxed_copy(alloc, left)?;
    against_zero(alloc, op, copy)
}

/// A result of the division against 0.
fn result_against_zero(
    alloc: Global,
    op: TermOp,
    division: TermOp,
    left: &Term,
    right: &Term,
) -> Result<Boxed<Term>, AllocError>
    ensures { IfOk result (λ t. t ≡ term.Infix op (term.Infix division left.now right.now) zero_term) }
{
    let value = operation(alloc, division, left, right)?;
    against_zero(alloc, op, value)
}

/// The magnitude of a term.
fn magnitude(alloc: Global, operand: &Term) -> Result<Boxed<Term>, AllocError>
    ensures { IfOk result (λ t. t ≡ term.Prefix sign.Abs operand.now) }
{
    let copy = boxed_copy(alloc, operand)?;
    boxed_prefix(alloc, TermPrefix::Abs, copy)
}

/// `b * (a / b)`
fn product(alloc: Global, left: &Term, right: &Term) -> Result<Boxed<Term>, AllocError>
    ensures { IfOk result (λ t. t ≡ term.Infix op.Multiply right.now (term.Infix op.Divide left.now right.now)) }
{
    let copy = boxed_copy(alloc, right)?;
    let quotient = operation(alloc, TermOp::Divide, left, right)?;
    boxed_infix(alloc, TermOp::Multiply, copy, quotient)
}

/// `b * (a / b) + a rem b`
fn sum(alloc: Global, left: &Term, right: &Term) -> Result<Boxed<Term>, AllocError>
    ensures { IfOk result (λ t. t ≡ term.Infix op.Add (term.Infix op.Multiply right.now (term.Infix op.Divide left.now right.now)) (term.Infix op.Rem left.now right.now)) }
{
    let product = product(alloc, left, right)?;
    let remainder = operation(alloc, TermOp::Rem, left, right)?;
    boxed_infix(alloc, TermOp::Add, product, remainder)
}

/// The dividend is the divisor times the quotient and the remainder.
fn dividend_fact(alloc: Global, left: &Term, right: &Term) -> Result<Boxed<Term>, AllocError>
    ensures { IfOk result (λ t. t ≡ term.Infix op.Equal left.now (term.Infix op.Add (term.Infix op.Multiply right.now (term.Infix op.Divide left.now right.now)) (term.Infix op.Rem left.now right.now))) }
{
    let copy = boxed_copy(alloc, left)?;
    let sum = sum(alloc, left, right)?;
    boxed_infix(alloc, TermOp::Equal, copy, sum)
}

/// The remainder's magnitude.
fn remainder_magnitude(alloc: Global, left: &Term, right: &Term) -> Result<Boxed<Term>, AllocError>
    ensures { IfOk result (λ t. t ≡ term.Prefix sign.Abs (term.Infix op.Rem left.now right.now)) }
{
    let remainder = operation(alloc, TermOp::Rem, left, right)?;
    boxed_prefix(alloc, TermPrefix::Abs, remainder)
}

/// The remainder is smaller than the divisor.
fn smaller_fact(alloc: Global, left: &Term, right: &Term) -> Result<Boxed<Term>, AllocError>
    ensures { IfOk result (λ t. t ≡ term.Infix op.Less (term.Prefix sign.Abs (term.Infix op.Rem left.now right.now)) (term.Prefix sign.Abs right.now)) }
{
    let remainder = remainder_magnitude(alloc, left, right)?;
    let divisor = magnitude(alloc, right)?;
    boxed_infix(alloc, TermOp::Less, remainder, divisor)
}

/// The remainder is on the same side of 0 as the dividend.
fn sign_fact(
    alloc: Global,
    op: TermOp,
    left: &Term,
    right: &Term,
) -> Result<Boxed<Term>, AllocError>
    ensures { IfOk result (λ t. t ≡ term.Infix TermOp.Implies (term.Infix op left.now zero_term) (term.Infix op (term.Infix TermOp.Rem left.now right.now) zero_term)) }
{
    let dividend = copy_against_zero(alloc, op, left)?;
    let remainder = result_against_zero(alloc, op, TermOp::Rem, left, right)?;
    boxed_infix(alloc, TermOp::Implies, dividend, remainder)
}

/// The modulus against the divisor.
fn modulus_end(
    alloc: Global,
    op: TermOp,
    left: &Term,
    right: &Term,
) -> Result<Boxed<Term>, AllocError>
    ensures { IfOk result (λ t. t ≡ term.Infix op (term.Infix TermOp.Mod left.now right.now) right.now) }
{
    let modulus = operation(alloc, TermOp::Mod, left, right)?;
    let copy = boxed_copy(alloc, right)?;
    boxed_infix(alloc, op, modulus, copy)
}

/// The modulus against 0 and against the divisor.
fn modulus_range(
    alloc: Global,
    first: TermOp,
    second: TermOp,
    left: &Term,
    right: &Term,
) -> Result<Boxed<Term>, AllocError>
    ensures { IfOk result (λ t. t ≡ term.Infix op.And (term.Infix first (term.Infix op.Mod left.now right.now) zero_term) (term.Infix second (term.Infix op.Mod left.now right.now) right.now)) }
{
    let near = result_against_zero(alloc, first, TermOp::Mod, left, right)?;
    let far = modulus_end(alloc, second, left, right)?;
    boxed_infix(alloc, TermOp::And, near, far)
}

/// The modulus lies between 0 and the divisor.
fn modulus_fact(
    alloc: Global,
    side: TermOp,
    first: TermOp,
    second: TermOp,
    left: &Term,
    right: &Term,
) -> Result<Boxed<Term>, AllocError>
    ensures { IfOk result (λ t. t ≡ term.Infix op.Implies (term.Infix side right.now zero_term) (term.Infix op.And (term.Infix first (term.Infix op.Mod left.now right.now) zero_term) (term.Infix second (term.Infix op.Mod left.now right.now) right.now))) }
{
    let divisor = copy_against_zero(alloc, side, right)?;
    let range = modulus_range(alloc, first, second, left, right)?;
    boxed_infix(alloc, TermOp::Implies, divisor, range)
}

/// The modulus equals a term.
fn modulus_equals(
    alloc: Global,
    left: &Term,
    right: &Term,
    other: Boxed<Term>,
) -> Result<Boxed<Term>, AllocError>
    ensures { IfOk result (λ t. t ≡ term.Infix op.Equal (term.Infix op.Mod left.now right.now) other) }
{
    let modulus = operation(alloc, TermOp::Mod, left, right)?;
    boxed_infix(alloc, TermOp::Equal, modulus, other)
}

/// The modulus is the remainder.
fn modulus_alike(alloc: Global, left: &Term, right: &Term) -> Result<Boxed<Term>, AllocError>
    ensures { IfOk result (λ t. t ≡ term.Infix op.Equal (term.Infix op.Mod left.now right.now) (term.Infix op.Rem left.now right.now)) }
{
    let remainder = operation(alloc, TermOp::Rem, left, right)?;
    modulus_equals(alloc, left, right, remainder)
}

/// The modulus is the remainder and the divisor.
fn modulus_unlike(alloc: Global, left: &Term, right: &Term) -> Result<Boxed<Term>, AllocError>
    ensures { IfOk result (λ t. t ≡ term.Infix op.Equal (term.Infix op.Mod left.now right.now) (term.Infix op.Add (term.Infix op.Rem left.now right.now) right.now)) }
{
    let remainder = operation(alloc, TermOp::Rem, left, right)?;
    let copy = boxed_copy(alloc, right)?;
    let sum = boxed_infix(alloc, TermOp::Add, remainder, copy)?;
    modulus_equals(alloc, left, right, sum)
}

/// The modulus is the remainder, or that and the divisor.
fn either_fact(alloc: Global, left: &Term, right: &Term) -> Result<Boxed<Term>, AllocError>
    ensures { IfOk result (λ t. t ≡ term.Infix op.Or (term.Infix op.Equal (term.Infix op.Mod left.now right.now) (term.Infix op.Rem left.now right.now)) (term.Infix op.Equal (term.Infix op.Mod left.now right.now) (term.Infix op.Add (term.Infix op.Rem left.now right.now) right.now))) }
{
    let alike = modulus_alike(alloc, left, right)?;
    let unlike = modulus_unlike(alloc, left, right)?;
    boxed_infix(alloc, TermOp::Or, alike, unlike)
}

/// The facts on the quotient and the remainder.
fn remainder_facts(alloc: Global, left: &Term, right: &Term) -> Result<Items<Term>, AllocError>
    ensures { IfOk result (λ r. r ≡ take 4 (division_facts left.now right.now)) }
{
    let mut facts = Items::new(alloc);
    let first = dividend_fact(alloc, left, right)?;
    facts.push(first.into_inner())?;
    let second = smaller_fact(alloc, left, right)?;
    facts.push(second.into_inner())?;
    let third = sign_fact(alloc, TermOp::GreaterOrEqual, left, right)?;
    facts.push(third.into_inner())?;
    let fourth = sign_fact(alloc, TermOp::LessOrEqual, left, right)?;
    facts.push(fourth.into_inner())?;
    Ok(facts)
}

/// The modulus lies above 0 and below the divisor.
fn above_fact(alloc: Global, left: &Term, right: &Term) -> Result<Boxed<Term>, AllocError>
    ensures { IfOk result (λ t. t ≡ term.Infix op.Implies (term.Infix op.Greater right.now zero_term) (term.Infix op.And (term.Infix op.GreaterOrEqual (term.Infix op.Mod left.now right.now) zero_term) (term.Infix op.Less (term.Infix op.Mod left.now right.now) right.now))) }
{
    let (at, past) = (TermOp::GreaterOrEqual, TermOp::Less);
    modulus_fact(alloc, TermOp::Greater, at, past, left, right)
}

/// The modulus lies below 0 and above the divisor.
fn below_fact(alloc: Global, left: &Term, right: &Term) -> Result<Boxed<Term>, AllocError>
    ensures { IfOk result (λ t. t ≡ term.Infix op.Implies (term.Infix op.Less right.now zero_term) (term.Infix op.And (term.Infix op.LessOrEqual (term.Infix op.Mod left.now right.now) zero_term) (term.Infix op.Greater (term.Infix op.Mod left.now right.now) right.now))) }
{
    let (at, past) = (TermOp::LessOrEqual, TermOp::Greater);
    modulus_fact(alloc, TermOp::Less, at, past, left, right)
}

/// The facts on the modulus.
fn modulus_facts(alloc: Global, left: &Term, right: &Term) -> Result<Items<Term>, AllocError>
    ensures { IfOk result (λ r. r ≡ drop 4 (division_facts left.now right.now)) }
{
    let mut facts = Items::new(alloc);
    let first = above_fact(alloc, left, right)?;
    facts.push(first.into_inner())?;
    let second = below_fact(alloc, left, right)?;
    facts.push(second.into_inner())?;
    let third = either_fact(alloc, left, right)?;
    facts.push(third.into_inner())?;
    Ok(facts)
}

/// All facts on a division by what is not 0.
fn division_facts(alloc: Global, left: &Term, right: &Term) -> Result<Items<Term>, AllocError>
    ensures { IfOk result (λ r. r ≡ division_facts left.now right.now) }
{
    let mut facts = remainder_facts(alloc, left, right)?;
    let more = modulus_facts(alloc, left, right)?;
    facts.append(more)?;
    Ok(facts)
}

/// The divisor is not 0, as the goal.
fn divisor_goal(alloc: Global, right: &Term) -> Result<Change, AllocError>
    ensures { IfOk result (λ c. c ≡ change_goal (term.Infix op.NotEqual right.now zero_term)) }
{
    let divisor = copy_against_zero(alloc, TermOp::NotEqual, right)?;
    Ok(goal(alloc, divisor))
}

/// The divisor is not 0, and then all facts on the division.
fn divided(alloc: Global, left: &Term, right: &Term) -> Result<Changes, AllocError>
    ensures { IfOk result (λ cs. cs ≡ changes.Two (change_goal (term.Infix op.NotEqual right.now zero_term)) (record { hyps = division_facts left.now right.now; goal = None })) }
{
    let first = divisor_goal(alloc, right)?;
    let hyps = division_facts(alloc, left, right)?;
    Ok(Changes::Two(first, Change { hyps, goal: None }))
}

/// The step `div` on an operation.
fn div_infix(alloc: Global, op: TermOp, left: &Term, right: &Term) -> Result<Changes, StepFault>
    ensures { (s : Sequent) → Leaves result s (div_by s (divides op left.now right.now)) }
{
    match op {
        TermOp::Divide | TermOp::Rem | TermOp::Mod => Ok(divided(alloc, left, right)?),
        TermOp::Add | TermOp::Subtract | TermOp::Multiply => Err(StepFault::DoesNotApply),
        TermOp::Power => Err(StepFault::DoesNotApply),
        TermOp::Equal | TermOp::NotEqual => Err(StepFault::DoesNotApply),
        TermOp::Less | TermOp::LessOrEqual => Err(StepFault::DoesNotApply),
        TermOp::Greater | TermOp::GreaterOrEqual => Err(StepFault::DoesNotApply),
        TermOp::And | TermOp::Or | TermOp::Implies => Err(StepFault::DoesNotApply),
        TermOp::Equivalent => Err(StepFault::DoesNotApply),
    }
}

/// The step `div` on a term.
#[tactic(auto, using(crate::proofs::Layers::layers), unfolding(crate::specs::Divisions::division))]
pub(crate) fn div_of(alloc: Global, divided: &Term) -> Result<Changes, StepFault>
    ensures { (s : Sequent) → Leaves result s (div_by s (division divided.now)) }
{
    match divided {
        Term::Infix(op, left, right) => div_infix(alloc, *op, left.get(), right.get()),
        Term::Number(_) => Err(StepFault::DoesNotApply),
        Term::Truth(_) => Err(StepFault::DoesNotApply),
        Term::Variable(_) => Err(StepFault::DoesNotApply),
        Term::Blank(_) => Err(StepFault::DoesNotApply),
        Term::Prefix(_, _) => Err(StepFault::DoesNotApply),
        Term::Unary(_, _) => Err(StepFault::DoesNotApply),
        Term::Binary(_, _, _) => Err(StepFault::DoesNotApply),
        Term::Ternary(_, _, _, _) => Err(StepFault::DoesNotApply),
    }
}
