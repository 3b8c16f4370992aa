// One term in the place of another.
ghost use Rattle.std.specs.Prelude.{◌≡◌, ◌&&◌, IfOk};
ghost use Rattle.spx_term.specs.declared.condition.Sequent.{Sequent};
ghost use Rattle.spx_term.specs.declared.term.Term.{out-Term};
ghost use Rattle.spx_term.specs.Substitution as spec;
ghost use Rattle.spx_kernel.specs.Changes.{Leaves};
ghost use Rattle.spx_kernel.specs.Occurrences.{occurs, replaced};
ghost use Rattle.spx_kernel.specs.Quantifiers.{stands_alone};
ghost use Rattle.spx_kernel.specs.Rewriting.{rewritten};
ghost use Rattle.spx_kernel.specs.Steps.{only_if, rewrite_goal, rewrite_hyp, rewrite_by, rewrite_in};

use crate::StepFault;
use crate::change::{Changes, goal, hyp};
use crate::parts::hyp_at;
use crate::scope::{depth_in, stands_alone};
use spx_term::{
    MOST_LEVELS, Sequent, Term, TermOp, boxed_binary, boxed_blank, boxed_infix, boxed_number,
    boxed_prefix, boxed_ternary, boxed_truth, boxed_unary, boxed_variable, raised, same,
};
use sqlite_items::Boxed;
use std::alloc::{AllocError, Global};

/// Whether one term occurs in another, which stands under so many quantifiers, where the stack has room for so many levels. Under
/// these quantifiers the first one is `here`.
#[cycle(occurs)]
#[tactic(auto, using(crate::proofs::OccurrenceForms::occurs_forms))]
fn occurs(
    alloc: Global,
    term: &Term,
    from: &Term,
    here: &Term,
    depth: usize,
    room: u32,
) -> Result<bool, AllocError>
    requires { here.now ≡ spec.raised depth from.now }
    ensures { IfOk result (λ yes. yes ≡ occurs depth from.now term.now) }
{
    if room == 0 {
        return Err(AllocError);
    }
    let found = same(term, here);
    match term {
        Term::Number(_) => Ok(found),
        Term::Truth(_) => Ok(found),
        Term::Variable(_) => Ok(found),
        Term::Blank(_) => Ok(found),
        Term::Prefix(_, operand) => {
            let first = occurs(alloc, operand.get(), from, here, depth, room - 1)?;
            Ok(found || first)
        }
        Term::Infix(_, left, right) => {
            let first = occurs(alloc, left.get(), from, here, depth, room - 1)?;
            let second = occurs(alloc, right.get(), from, here, depth, room - 1)?;
            Ok(found || (first || second))
        }
        Term::Unary(_, operand) => {
            let first = occurs(alloc, operand.get(), from, here, depth, room - 1)?;
            Ok(found || first)
        }
        Term::Binary(_, left, right) => {
            let first = occurs(alloc, left.get(), from, here, depth, room - 1)?;
            let second = occurs(alloc, right.get(), from, here, depth, room - 1)?;
            Ok(found || (first || second))
        }
        Term::Ternary(op, first, second, third) => {
            let first = occurs(alloc, first.get(), from, here, depth, room - 1)?;
            let second = occurs(alloc, second.get(), from, here, depth, room - 1)?;
            let inside = depth_in(*op.get(), depth)?;
            let below = raised(alloc, from, inside)?;
            let third = occurs(alloc, third.get(), from, below.get(), inside, room - 1)?;
            Ok(found || (first || (second || third)))
        }
    }
}

/// The term with another one in the place of a third, where it stands under so many quantifiers, and the stack has room for so
/// many levels. Under these quantifiers the third one is `here`.
#[cycle(replaced)]
#[tactic(auto, using(crate::proofs::OccurrenceForms::replaced_forms))]
fn replaced(
    alloc: Global,
    term: &Term,
    from: &Term,
    to: &Term,
    here: &Term,
    depth: usize,
    room: u32,
) -> Result<Boxed<Term>, AllocError>
    requires { here.now ≡ spec.raised depth from.now }
    ensures { IfOk result (λ r. r ≡ replaced depth from.now to.now term.now) }
{
    if room == 0 {
        return Err(AllocError);
    }
    if same(term, here) {
        return raised(alloc, to, depth);
    }
    match term {
        Term::Number(value) => boxed_number(alloc, *value),
        Term::Truth(value) => boxed_truth(alloc, *value),
        Term::Variable(name) => boxed_variable(alloc, *name),
        Term::Blank(id) => boxed_blank(alloc, *id),
        Term::Prefix(op, operand) => {
            let operand = replaced(alloc, operand.get(), from, to, here, depth, room - 1)?;
            boxed_prefix(alloc, *op, operand)
        }
        Term::Infix(op, left, right) => {
            let left = replaced(alloc, left.get(), from, to, here, depth, room - 1)?;
            let right = replaced(alloc, right.get(), from, to, here, depth, room - 1)?;
            boxed_infix(alloc, *op, left, right)
        }
        Term::Unary(op, operand) => {
            let operand = replaced(alloc, operand.get(), from, to, here, depth, room - 1)?;
            boxed_unary(alloc, *op.get(), operand)
        }
        Term::Binary(op, left, right) => {
            let left = replaced(alloc, left.get(), from, to, here, depth, room - 1)?;
            let right = replaced(alloc, right.get(), from, to, here, depth, room - 1)?;
            boxed_binary(alloc, *op.get(), left, right)
        }
        Term::Ternary(op, first, second, third) => {
            let first = replaced(alloc, first.get(), from, to, here, depth, room - 1)?;
            let second = replaced(alloc, second.get(), from, to, here, depth, room - 1)?;
            let inside = depth_in(*op.get(), depth)?;
            let below = raised(alloc, from, inside)?;
            let third = replaced(alloc, third.get(), from, to, below.get(), inside, room - 1)?;
            boxed_ternary(alloc, *op.get(), first, second, third)
        }
    }
}

/// The term with another one in the place of a third, where that occurs.
#[tactic(auto, using(crate::proofs::OccurrenceForms::rewritten_is))]
fn rewritten(
    alloc: Global,
    from: &Term,
    to: &Term,
    term: &Term,
) -> Result<Option<Boxed<Term>>, AllocError>
    ensures { IfOk result (λ r. r ≡ rewritten from.now to.now term.now) }
{
    let here = raised(alloc, from, 0)?;
    if !occurs(alloc, term, from, here.get(), 0, MOST_LEVELS)? {
        return Ok(None);
    }
    let changed = replaced(alloc, term, from, to, here.get(), 0, MOST_LEVELS)?;
    Ok(Some(changed))
}

/// The step `rewrite` in the goal.
fn rewrite_goal(
    alloc: Global,
    sequent: &Sequent,
    from: &Term,
    to: &Term,
) -> Result<Changes, StepFault>
    ensures { Leaves result sequent.now (rewrite_goal sequent.now (rewritten from.now to.now sequent.now.goal)) }
{
    match rewritten(alloc, from, to, &sequent.goal)? {
        Some(changed) => Ok(Changes::One(goal(alloc, changed))),
        None => Err(StepFault::DoesNotApply),
    }
}

/// The step `rewrite` in a hypothesis.
fn rewrite_hyp(
    alloc: Global,
    changed_hyp: &Term,
    from: &Term,
    to: &Term,
) -> Result<Changes, StepFault>
    ensures { (s : Sequent) → Leaves result s (rewrite_hyp s (rewritten from.now to.now changed_hyp.now)) }
{
    match rewritten(alloc, from, to, changed_hyp)? {
        Some(changed) => Ok(Changes::One(hyp(alloc, changed)?)),
        None => Err(StepFault::DoesNotApply),
    }
}

/// The step `rewrite` in the goal or in the hypothesis with a number.
fn rewrite_at(
    alloc: Global,
    sequent: &Sequent,
    place: Option<i128>,
    from: &Term,
    to: &Term,
) -> Result<Changes, StepFault>
    ensures { Leaves result sequent.now (rewrite_by TermOp.Equal sequent.now place from.now to.now) }
{
    match place {
        Some(number) => match hyp_at(sequent, number) {
            Some(hyp) => rewrite_hyp(alloc, hyp, from, to),
            None => Err(StepFault::DoesNotApply),
        },
        None => rewrite_goal(alloc, sequent, from, to),
    }
}

/// The step `rewrite` by a hypothesis that is an operation.
fn rewrite_by(
    alloc: Global,
    op: TermOp,
    sequent: &Sequent,
    place: Option<i128>,
    from: &Term,
    to: &Term,
) -> Result<Changes, StepFault>
    ensures { Leaves result sequent.now (rewrite_by op sequent.now place from.now to.now) }
{
    match op {
        TermOp::Equal => rewrite_at(alloc, sequent, place, from, to),
        TermOp::And | TermOp::Or => Err(StepFault::DoesNotApply),
        TermOp::Implies | TermOp::Equivalent => Err(StepFault::DoesNotApply),
        TermOp::NotEqual | TermOp::Less | TermOp::LessOrEqual => Err(StepFault::DoesNotApply),
        TermOp::Greater | TermOp::GreaterOrEqual => Err(StepFault::DoesNotApply),
        TermOp::Add | TermOp::Subtract | TermOp::Multiply => Err(StepFault::DoesNotApply),
        TermOp::Divide | TermOp::Rem | TermOp::Mod => Err(StepFault::DoesNotApply),
        TermOp::Power => Err(StepFault::DoesNotApply),
    }
}

/// The step `rewrite` by an operation whose sides stand alone.
fn rewrite_infix(
    alloc: Global,
    op: TermOp,
    sequent: &Sequent,
    place: Option<i128>,
    from: &Term,
    to: &Term,
) -> Result<Changes, StepFault>
    ensures { Leaves result sequent.now (only_if (stands_alone from.now && stands_alone to.now) (rewrite_by op sequent.now place from.now to.now)) }
{
    if !stands_alone(alloc, from)? {
        return Err(StepFault::DoesNotApply);
    }
    if !stands_alone(alloc, to)? {
        return Err(StepFault::DoesNotApply);
    }
    rewrite_by(alloc, op, sequent, place, from, to)
}

/// The step `rewrite` by a hypothesis.
#[tactic(auto, using(crate::proofs::Layers::layers))]
pub(crate) fn rewrite_in(
    alloc: Global,
    sequent: &Sequent,
    place: Option<i128>,
    equation: &Term,
) -> Result<Changes, StepFault>
    ensures { Leaves result sequent.now (rewrite_in sequent.now place (out-Term equation.now)) }
{
    match equation {
        Term::Infix(op, left, right) => {
            rewrite_infix(alloc, *op, sequent, place, left.get(), right.get())
        }
        Term::Number(_) => Err(StepFault::DoesNotApply),
        Term::Truth(_) => Err(StepFault::DoesNotApply),
        Term::Variable(_) => Err(StepFault::DoesNotApply),
        Term::Blank(_) => Err(StepFault::DoesNotApply),
        Term::Prefix(_, _) => Err(StepFault::DoesNotApply),
        Term::Unary(_, _) => Err(StepFault::DoesNotApply),
        Term::Binary(_, _, _) => Err(StepFault::DoesNotApply),
        Term::Ternary(_, _, _, _) => Err(StepFault::DoesNotApply),
    }
}
