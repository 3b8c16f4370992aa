// The steps on logical connectives.
ghost use Rattle.std.specs.Prelude.{◌≡◌, [], ◌∷◌, None, Some, IfOk};
ghost use Rattle.spx_term.specs.declared.condition.Sequent.{Sequent};
ghost use Rattle.spx_term.specs.declared.term.TermOp.TheVariants as op;
ghost use Rattle.spx_kernel.specs.declared.change.Changes.TheVariants as changes;
ghost use Rattle.spx_term.specs.declared.term.Term.{out-Term};
ghost use Rattle.spx_term.specs.declared.term.Term.TheVariants as term;
ghost use Rattle.spx_kernel.specs.Changes.{Leaves, change_goal, change_hyp};
ghost use Rattle.spx_kernel.specs.Steps.{cases_in, cases_infix, intro_in, intro_infix, intro_prefix, pick_in, pick_infix, split_in, split_infix, use_in, use_infix, use_prefix};

use crate::StepFault;
use crate::change::{Change, Changes, boxed_copy, goal, hyp, two_hyps};
use crate::quantifier::{intro_ternary, use_ternary};
use spx_term::{Sequent, Term, TermOp, TermPrefix, boxed_infix, is_numeric};
use sqlite_items::Boxed;
use std::alloc::{AllocError, Global};

/// An operation on copies of two terms.
pub(crate) fn operation(
    alloc: Global,
    op: TermOp,
    left: &Term,
    right: &Term,
) -> Result<Boxed<Term>, AllocError>
    ensures { IfOk result (λ t. t ≡ term.Infix op left.now right.now) }
{
    let left = boxed_copy(alloc, left)?;
    let right = boxed_copy(alloc, right)?;
    boxed_infix(alloc, op, left, right)
}

/// An operation as the goal.
pub(crate) fn goal_of(
    alloc: Global,
    op: TermOp,
    left: &Term,
    right: &Term,
) -> Result<Change, AllocError>
    ensures { IfOk result (λ c. c ≡ change_goal (term.Infix op left.now right.now)) }
{
    let operation = operation(alloc, op, left, right)?;
    Ok(goal(alloc, operation))
}

/// A copy as the goal.
pub(crate) fn goal_copied(alloc: Global, copied: &Term) -> Result<Change, AllocError>
    ensures { IfOk result (λ c. c ≡ change_goal copied.now) }
{
    let copy = boxed_copy(alloc, copied)?;
    Ok(goal(alloc, copy))
}

/// An operation as one more hypothesis.
pub(crate) fn hyp_of(
    alloc: Global,
    op: TermOp,
    left: &Term,
    right: &Term,
) -> Result<Change, AllocError>
    ensures { IfOk result (λ c. c ≡ change_hyp (term.Infix op left.now right.now)) }
{
    let operation = operation(alloc, op, left, right)?;
    hyp(alloc, operation)
}

/// A copy as one more hypothesis.
pub(crate) fn hyp_copied(alloc: Global, copied: &Term) -> Result<Change, AllocError>
    ensures { IfOk result (λ c. c ≡ change_hyp copied.now) }
{
    let copy = boxed_copy(alloc, copied)?;
    hyp(alloc, copy)
}

// ---- split

/// Two operations as goals.
fn two_goals(
    alloc: Global,
    first: TermOp,
    second: TermOp,
    left: &Term,
    right: &Term,
) -> Result<Changes, AllocError>
    ensures { IfOk result (λ cs. cs ≡ changes.Two (change_goal (term.Infix first left.now right.now)) (change_goal (term.Infix second left.now right.now))) }
{
    let first = goal_of(alloc, first, left, right)?;
    let second = goal_of(alloc, second, left, right)?;
    Ok(Changes::Two(first, second))
}

/// Both sides as goals.
fn both_sides(alloc: Global, left: &Term, right: &Term) -> Result<Changes, AllocError>
    ensures { IfOk result (λ cs. cs ≡ changes.Two (change_goal left.now) (change_goal right.now)) }
{
    let first = goal_copied(alloc, left)?;
    let second = goal_copied(alloc, right)?;
    Ok(Changes::Two(first, second))
}

/// Both directions of an equivalence as goals.
fn both_directions(alloc: Global, left: &Term, right: &Term) -> Result<Changes, AllocError>
    ensures { IfOk result (λ cs. cs ≡ changes.Two (change_goal (term.Infix op.Implies left.now right.now)) (change_goal (term.Infix op.Implies right.now left.now))) }
{
    let first = goal_of(alloc, TermOp::Implies, left, right)?;
    let second = goal_of(alloc, TermOp::Implies, right, left)?;
    Ok(Changes::Two(first, second))
}

/// The step `split` on a goal that is an operation.
fn split_infix(alloc: Global, op: TermOp, left: &Term, right: &Term) -> Result<Changes, StepFault>
    ensures { (s : Sequent) → Leaves result s (split_infix op s left.now right.now) }
{
    match op {
        TermOp::And => Ok(both_sides(alloc, left, right)?),
        TermOp::Equivalent => Ok(both_directions(alloc, left, right)?),
        TermOp::Equal => {
            if !is_numeric(left) {
                return Err(StepFault::DoesNotApply);
            }
            Ok(two_goals(
                alloc,
                TermOp::LessOrEqual,
                TermOp::GreaterOrEqual,
                left,
                right,
            )?)
        }
        TermOp::Or | TermOp::Implies => Err(StepFault::DoesNotApply),
        TermOp::NotEqual | TermOp::Less | TermOp::LessOrEqual => Err(StepFault::DoesNotApply),
        TermOp::Greater | TermOp::GreaterOrEqual => Err(StepFault::DoesNotApply),
        TermOp::Add | TermOp::Subtract | TermOp::Multiply => Err(StepFault::DoesNotApply),
        TermOp::Divide | TermOp::Rem | TermOp::Mod => Err(StepFault::DoesNotApply),
        TermOp::Power => Err(StepFault::DoesNotApply),
    }
}

/// The step `split`.
#[tactic(auto, using(crate::proofs::Layers::layers))]
pub(crate) fn split(alloc: Global, sequent: &Sequent) -> Result<Changes, StepFault>
    ensures { Leaves result sequent.now (split_in sequent.now (out-Term sequent.now.goal)) }
{
    match &sequent.goal {
        Term::Infix(op, left, right) => split_infix(alloc, *op, left.get(), right.get()),
        Term::Number(_) => Err(StepFault::DoesNotApply),
        Term::Truth(_) => Err(StepFault::DoesNotApply),
        Term::Variable(_) => Err(StepFault::DoesNotApply),
        Term::Blank(_) => Err(StepFault::DoesNotApply),
        Term::Prefix(_, _) => Err(StepFault::DoesNotApply),
        Term::Unary(_, _) => Err(StepFault::DoesNotApply),
        Term::Binary(_, _, _) => Err(StepFault::DoesNotApply),
        Term::Ternary(_, _, _, _) => Err(StepFault::DoesNotApply),
    }
}

// ---- intro

/// The right side as the goal, with the left one as a hypothesis.
fn with_left(alloc: Global, left: &Term, right: &Term) -> Result<Changes, AllocError>
    ensures { IfOk result (λ cs. cs ≡ changes.One (record { hyps = left.now ∷ []; goal = Some right.now })) }
{
    let goal = boxed_copy(alloc, right)?;
    let Change { hyps, goal: _ } = hyp_copied(alloc, left)?;
    let goal = Some(goal);
    Ok(Changes::One(Change { hyps, goal }))
}

/// The step `intro` on a goal that is an operation.
fn intro_infix(alloc: Global, op: TermOp, left: &Term, right: &Term) -> Result<Changes, StepFault>
    ensures { (s : Sequent) → Leaves result s (intro_infix op s left.now right.now) }
{
    match op {
        TermOp::Implies => Ok(with_left(alloc, left, right)?),
        TermOp::And | TermOp::Or | TermOp::Equivalent => Err(StepFault::DoesNotApply),
        TermOp::Equal | TermOp::NotEqual => Err(StepFault::DoesNotApply),
        TermOp::Less | TermOp::LessOrEqual => Err(StepFault::DoesNotApply),
        TermOp::Greater | TermOp::GreaterOrEqual => Err(StepFault::DoesNotApply),
        TermOp::Add | TermOp::Subtract | TermOp::Multiply => Err(StepFault::DoesNotApply),
        TermOp::Divide | TermOp::Rem | TermOp::Mod => Err(StepFault::DoesNotApply),
        TermOp::Power => Err(StepFault::DoesNotApply),
    }
}

/// The step `intro` on a goal that is a negation.
fn intro_prefix(alloc: Global, op: TermPrefix, operand: &Term) -> Result<Changes, StepFault>
    ensures { (s : Sequent) → Leaves result s (intro_prefix op s operand.now) }
{
    match op {
        TermPrefix::Not => Ok(with_left(alloc, operand, &Term::Truth(false))?),
        TermPrefix::Minus => Err(StepFault::DoesNotApply),
        TermPrefix::Abs => Err(StepFault::DoesNotApply),
    }
}

/// The step `intro`.
#[tactic(auto, using(crate::proofs::Layers::layers))]
pub(crate) fn intro(alloc: Global, sequent: &Sequent) -> Result<Changes, StepFault>
    ensures { Leaves result sequent.now (intro_in sequent.now (out-Term sequent.now.goal)) }
{
    match &sequent.goal {
        Term::Infix(op, left, right) => intro_infix(alloc, *op, left.get(), right.get()),
        Term::Prefix(op, operand) => intro_prefix(alloc, *op, operand.get()),
        Term::Ternary(op, low, high, body) => {
            intro_ternary(alloc, *op.get(), sequent, low.get(), high.get(), body.get())
        }
        Term::Number(_) => Err(StepFault::DoesNotApply),
        Term::Truth(_) => Err(StepFault::DoesNotApply),
        Term::Variable(_) => Err(StepFault::DoesNotApply),
        Term::Blank(_) => Err(StepFault::DoesNotApply),
        Term::Unary(_, _) => Err(StepFault::DoesNotApply),
        Term::Binary(_, _, _) => Err(StepFault::DoesNotApply),
    }
}

// ---- pick

/// One side of a goal that is an operation.
fn pick_infix(
    alloc: Global,
    left: bool,
    op: TermOp,
    first: &Term,
    second: &Term,
) -> Result<Changes, StepFault>
    ensures { (s : Sequent) → Leaves result s (pick_infix left op s first.now second.now) }
{
    match op {
        TermOp::Or => {
            let side = if left { first } else { second };
            Ok(Changes::One(goal_copied(alloc, side)?))
        }
        TermOp::And | TermOp::Implies | TermOp::Equivalent => Err(StepFault::DoesNotApply),
        TermOp::Equal | TermOp::NotEqual => Err(StepFault::DoesNotApply),
        TermOp::Less | TermOp::LessOrEqual => Err(StepFault::DoesNotApply),
        TermOp::Greater | TermOp::GreaterOrEqual => Err(StepFault::DoesNotApply),
        TermOp::Add | TermOp::Subtract | TermOp::Multiply => Err(StepFault::DoesNotApply),
        TermOp::Divide | TermOp::Rem | TermOp::Mod => Err(StepFault::DoesNotApply),
        TermOp::Power => Err(StepFault::DoesNotApply),
    }
}

/// The steps `pick left` and `pick right`.
#[tactic(auto, using(crate::proofs::Layers::layers))]
pub(crate) fn pick(alloc: Global, sequent: &Sequent, left: bool) -> Result<Changes, StepFault>
    ensures { Leaves result sequent.now (pick_in left sequent.now (out-Term sequent.now.goal)) }
{
    match &sequent.goal {
        Term::Infix(op, first, second) => pick_infix(alloc, left, *op, first.get(), second.get()),
        Term::Number(_) => Err(StepFault::DoesNotApply),
        Term::Truth(_) => Err(StepFault::DoesNotApply),
        Term::Variable(_) => Err(StepFault::DoesNotApply),
        Term::Blank(_) => Err(StepFault::DoesNotApply),
        Term::Prefix(_, _) => Err(StepFault::DoesNotApply),
        Term::Unary(_, _) => Err(StepFault::DoesNotApply),
        Term::Binary(_, _, _) => Err(StepFault::DoesNotApply),
        Term::Ternary(_, _, _, _) => Err(StepFault::DoesNotApply),
    }
}

// ---- cases

/// One or the other as one more hypothesis.
fn two_cases(alloc: Global, left: &Term, right: &Term) -> Result<Changes, AllocError>
    ensures { IfOk result (λ cs. cs ≡ changes.Two (change_hyp left.now) (change_hyp right.now)) }
{
    let first = hyp_copied(alloc, left)?;
    let second = hyp_copied(alloc, right)?;
    Ok(Changes::Two(first, second))
}

/// The left side below or above the right one.
fn below_or_above(alloc: Global, left: &Term, right: &Term) -> Result<Changes, AllocError>
    ensures { IfOk result (λ cs. cs ≡ changes.Two (change_hyp (term.Infix op.Less left.now right.now)) (change_hyp (term.Infix op.Greater left.now right.now))) }
{
    let first = hyp_of(alloc, TermOp::Less, left, right)?;
    let second = hyp_of(alloc, TermOp::Greater, left, right)?;
    Ok(Changes::Two(first, second))
}

/// The step `cases` on a hypothesis that is an operation.
fn cases_infix(alloc: Global, op: TermOp, left: &Term, right: &Term) -> Result<Changes, StepFault>
    ensures { (s : Sequent) → Leaves result s (cases_infix op s left.now right.now) }
{
    match op {
        TermOp::Or => Ok(two_cases(alloc, left, right)?),
        TermOp::NotEqual => {
            if !is_numeric(left) {
                return Err(StepFault::DoesNotApply);
            }
            Ok(below_or_above(alloc, left, right)?)
        }
        TermOp::And | TermOp::Implies | TermOp::Equivalent => Err(StepFault::DoesNotApply),
        TermOp::Equal | TermOp::Less | TermOp::LessOrEqual => Err(StepFault::DoesNotApply),
        TermOp::Greater | TermOp::GreaterOrEqual => Err(StepFault::DoesNotApply),
        TermOp::Add | TermOp::Subtract | TermOp::Multiply => Err(StepFault::DoesNotApply),
        TermOp::Divide | TermOp::Rem | TermOp::Mod => Err(StepFault::DoesNotApply),
        TermOp::Power => Err(StepFault::DoesNotApply),
    }
}

/// The step `cases` on a hypothesis.
#[tactic(auto, using(crate::proofs::Layers::layers))]
pub(crate) fn cases(alloc: Global, hyp: &Term) -> Result<Changes, StepFault>
    ensures { (s : Sequent) → Leaves result s (cases_in s (out-Term hyp.now)) }
{
    match hyp {
        Term::Infix(op, left, right) => cases_infix(alloc, *op, left.get(), right.get()),
        Term::Number(_) => Err(StepFault::DoesNotApply),
        Term::Truth(_) => Err(StepFault::DoesNotApply),
        Term::Variable(_) => Err(StepFault::DoesNotApply),
        Term::Blank(_) => Err(StepFault::DoesNotApply),
        Term::Prefix(_, _) => Err(StepFault::DoesNotApply),
        Term::Unary(_, _) => Err(StepFault::DoesNotApply),
        Term::Binary(_, _, _) => Err(StepFault::DoesNotApply),
        Term::Ternary(_, _, _, _) => Err(StepFault::DoesNotApply),
    }
}

// ---- use

/// Both sides as hypotheses.
fn both_hyps(alloc: Global, left: &Term, right: &Term) -> Result<Changes, AllocError>
    ensures { IfOk result (λ cs. cs ≡ changes.One (record { hyps = left.now ∷ right.now ∷ []; goal = None })) }
{
    let left = boxed_copy(alloc, left)?;
    let right = boxed_copy(alloc, right)?;
    let hyps = two_hyps(alloc, left, right)?;
    Ok(Changes::One(Change { hyps, goal: None }))
}

/// Both directions of an equivalence as hypotheses.
fn both_implications(alloc: Global, left: &Term, right: &Term) -> Result<Changes, AllocError>
    ensures { IfOk result (λ cs. cs ≡ changes.One (record { hyps = term.Infix op.Implies left.now right.now ∷ term.Infix op.Implies right.now left.now ∷ []; goal = None })) }
{
    let first = operation(alloc, TermOp::Implies, left, right)?;
    let second = operation(alloc, TermOp::Implies, right, left)?;
    let hyps = two_hyps(alloc, first, second)?;
    Ok(Changes::One(Change { hyps, goal: None }))
}

/// A term as the goal, and then another one as a hypothesis.
pub(crate) fn shown_and_used(
    alloc: Global,
    shown: &Term,
    used: &Term,
) -> Result<Changes, AllocError>
    ensures { IfOk result (λ cs. cs ≡ changes.Two (change_goal shown.now) (change_hyp used.now)) }
{
    let first = goal_copied(alloc, shown)?;
    let second = hyp_copied(alloc, used)?;
    Ok(Changes::Two(first, second))
}

/// The step `use` on a hypothesis that is an operation.
fn use_infix(alloc: Global, op: TermOp, left: &Term, right: &Term) -> Result<Changes, StepFault>
    ensures { (s : Sequent) → Leaves result s (use_infix op s left.now right.now) }
{
    match op {
        TermOp::And => Ok(both_hyps(alloc, left, right)?),
        TermOp::Implies => Ok(shown_and_used(alloc, left, right)?),
        TermOp::Equivalent => Ok(both_implications(alloc, left, right)?),
        TermOp::Or | TermOp::Equal | TermOp::NotEqual => Err(StepFault::DoesNotApply),
        TermOp::Less | TermOp::LessOrEqual => Err(StepFault::DoesNotApply),
        TermOp::Greater | TermOp::GreaterOrEqual => Err(StepFault::DoesNotApply),
        TermOp::Add | TermOp::Subtract | TermOp::Multiply => Err(StepFault::DoesNotApply),
        TermOp::Divide | TermOp::Rem | TermOp::Mod => Err(StepFault::DoesNotApply),
        TermOp::Power => Err(StepFault::DoesNotApply),
    }
}

/// The step `use` on a hypothesis that is a negation.
fn use_prefix(alloc: Global, op: TermPrefix, operand: &Term) -> Result<Changes, StepFault>
    ensures { (s : Sequent) → Leaves result s (use_prefix op s operand.now) }
{
    match op {
        TermPrefix::Not => Ok(Changes::One(goal_copied(alloc, operand)?)),
        TermPrefix::Minus => Err(StepFault::DoesNotApply),
        TermPrefix::Abs => Err(StepFault::DoesNotApply),
    }
}

/// The step `use` on a hypothesis.
#[tactic(auto, using(crate::proofs::Layers::layers))]
pub(crate) fn use_hyp(alloc: Global, sequent: &Sequent, hyp: &Term) -> Result<Changes, StepFault>
    ensures { Leaves result sequent.now (use_in sequent.now hyp.now (out-Term hyp.now)) }
{
    match hyp {
        Term::Infix(op, left, right) => use_infix(alloc, *op, left.get(), right.get()),
        Term::Prefix(op, operand) => use_prefix(alloc, *op, operand.get()),
        Term::Ternary(op, low, high, body) => {
            use_ternary(
                alloc,
                *op.get(),
                sequent,
                hyp,
                low.get(),
                high.get(),
                body.get(),
            )
        }
        Term::Number(_) => Err(StepFault::DoesNotApply),
        Term::Truth(_) => Err(StepFault::DoesNotApply),
        Term::Variable(_) => Err(StepFault::DoesNotApply),
        Term::Blank(_) => Err(StepFault::DoesNotApply),
        Term::Unary(_, _) => Err(StepFault::DoesNotApply),
        Term::Binary(_, _, _) => Err(StepFault::DoesNotApply),
    }
}
