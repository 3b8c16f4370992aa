// The steps on quantifiers.
ghost use Rattle.std.specs.Prelude.{◌≡◌, [], ◌∷◌, None, Some, IfOk};
ghost use Rattle.spx_term.specs.declared.term.Term.{out-Term};
ghost use Rattle.spx_term.specs.declared.term.Term.TheVariants as term;
ghost use Rattle.spx_kernel.specs.declared.change.Changes.TheVariants as changes;
ghost use Rattle.spx_kernel.specs.Changes.{Leaves, change_goal, change_hyp};
ghost use Rattle.spx_kernel.specs.Names.{new_name};
ghost use Rattle.spx_kernel.specs.Quantifiers.{opened};
ghost use Rattle.spx_kernel.specs.Steps.{from_to, in_range, intro_all, use_some, inst_all, give_some, intro_ternary, use_ternary, inst_ternary, inst_in, give_ternary, give_in};

use crate::StepFault;
use crate::change::{Change, Changes, boxed_copy, goal, hyp, two_hyps};
use crate::names::new_name;
use crate::scope::{opened, stands_alone};
use spx_term::{
    BoundVariable, Quantifier, Sequent, Term, TermOp, TernaryOp, boxed_infix, boxed_variable,
};
use sqlite_items::{Boxed, Items};
use std::alloc::{AllocError, Global};

/// A number against another one.
fn compared(
    alloc: Global,
    op: TermOp,
    number: &Term,
    other: &Term,
) -> Result<Boxed<Term>, AllocError>
    ensures { IfOk result (λ t. t ≡ term.Infix op number.now other.now) }
{
    let number = boxed_copy(alloc, number)?;
    let other = boxed_copy(alloc, other)?;
    boxed_infix(alloc, op, number, other)
}

/// A number lies between two others, as two facts.
fn from_to(alloc: Global, number: &Term, low: &Term, high: &Term) -> Result<Items<Term>, AllocError>
    ensures { IfOk result (λ r. r ≡ from_to number.now low.now high.now) }
{
    let above = compared(alloc, TermOp::GreaterOrEqual, number, low)?;
    let below = compared(alloc, TermOp::LessOrEqual, number, high)?;
    two_hyps(alloc, above, below)
}

/// The same as one fact.
pub(crate) fn in_range(
    alloc: Global,
    number: &Term,
    low: &Term,
    high: &Term,
) -> Result<Boxed<Term>, AllocError>
    ensures { IfOk result (λ r. r ≡ in_range number.now low.now high.now) }
{
    let above = compared(alloc, TermOp::GreaterOrEqual, number, low)?;
    let below = compared(alloc, TermOp::LessOrEqual, number, high)?;
    boxed_infix(alloc, TermOp::And, above, below)
}

/// That a number lies between two others, as the goal.
pub(crate) fn range_goal(
    alloc: Global,
    number: &Term,
    low: &Term,
    high: &Term,
) -> Result<Change, AllocError>
    ensures { IfOk result (λ c. c ≡ change_goal (in_range number.now low.now high.now)) }
{
    let range = in_range(alloc, number, low, high)?;
    Ok(goal(alloc, range))
}

/// A name for the variable of a quantifier that a sequent does not have yet, as a term.
fn new_number(
    alloc: Global,
    sequent: &Sequent,
    bound: BoundVariable,
) -> Result<Boxed<Term>, AllocError>
    ensures { IfOk result (λ t. t ≡ term.Variable (new_name sequent.now bound)) }
{
    let name = new_name(sequent, bound)?;
    boxed_variable(alloc, name)
}

// ---- a new number for the variable

/// The body for a number in the range of the quantifier, as the goal.
fn goal_for(
    alloc: Global,
    number: &Term,
    low: &Term,
    high: &Term,
    body: &Term,
) -> Result<Changes, AllocError>
    ensures { IfOk result (λ cs. cs ≡ changes.One (record { hyps = from_to number.now low.now high.now; goal = Some (opened number.now body.now) })) }
{
    let body = opened(alloc, number, body)?;
    let hyps = from_to(alloc, number, low, high)?;
    let goal = Some(body);
    Ok(Changes::One(Change { hyps, goal }))
}

/// The body for a number in the range of the quantifier, as one more hypothesis.
fn hyp_for(
    alloc: Global,
    number: &Term,
    low: &Term,
    high: &Term,
    body: &Term,
) -> Result<Changes, AllocError>
    ensures { IfOk result (λ cs. cs ≡ changes.One (record { hyps = term.Infix TermOp.GreaterOrEqual number.now low.now ∷ term.Infix TermOp.LessOrEqual number.now high.now ∷ opened number.now body.now ∷ []; goal = None })) }
{
    let body = opened(alloc, number, body)?;
    let mut hyps = from_to(alloc, number, low, high)?;
    hyps.push(body.into_inner())?;
    Ok(Changes::One(Change { hyps, goal: None }))
}

/// `for all` as a goal: its body for a new number.
fn intro_all(
    alloc: Global,
    bound: BoundVariable,
    sequent: &Sequent,
    low: &Term,
    high: &Term,
    body: &Term,
) -> Result<Changes, StepFault>
    ensures { Leaves result sequent.now (intro_all Quantifier.All bound sequent.now low.now high.now body.now) }
{
    if !stands_alone(alloc, &sequent.goal)? {
        return Err(StepFault::DoesNotApply);
    }
    let number = new_number(alloc, sequent, bound)?;
    Ok(goal_for(alloc, number.get(), low, high, body)?)
}

/// The step `intro` on a goal that is a quantifier.
pub(crate) fn intro_ternary(
    alloc: Global,
    op: TernaryOp,
    sequent: &Sequent,
    low: &Term,
    high: &Term,
    body: &Term,
) -> Result<Changes, StepFault>
    ensures { Leaves result sequent.now (intro_ternary op sequent.now low.now high.now body.now) }
{
    match op {
        TernaryOp::Quantified(Quantifier::All, bound) => {
            intro_all(alloc, bound, sequent, low, high, body)
        }
        TernaryOp::Quantified(Quantifier::Some, _) => Err(StepFault::DoesNotApply),
        TernaryOp::Update(_) => Err(StepFault::DoesNotApply),
    }
}

/// `for some` as a hypothesis: its body for a new number.
#[tactic(auto, using(crate::proofs::ChangeLaws::one_after_two))]
fn use_some(
    alloc: Global,
    bound: BoundVariable,
    sequent: &Sequent,
    hyp: &Term,
    low: &Term,
    high: &Term,
    body: &Term,
) -> Result<Changes, StepFault>
    ensures { Leaves result sequent.now (use_some Quantifier.Some bound sequent.now hyp.now low.now high.now body.now) }
{
    if !stands_alone(alloc, hyp)? {
        return Err(StepFault::DoesNotApply);
    }
    let number = new_number(alloc, sequent, bound)?;
    Ok(hyp_for(alloc, number.get(), low, high, body)?)
}

/// The step `use` on a hypothesis that is a quantifier.
pub(crate) fn use_ternary(
    alloc: Global,
    op: TernaryOp,
    sequent: &Sequent,
    hyp: &Term,
    low: &Term,
    high: &Term,
    body: &Term,
) -> Result<Changes, StepFault>
    ensures { Leaves result sequent.now (use_ternary op sequent.now hyp.now low.now high.now body.now) }
{
    match op {
        TernaryOp::Quantified(Quantifier::Some, bound) => {
            use_some(alloc, bound, sequent, hyp, low, high, body)
        }
        TernaryOp::Quantified(Quantifier::All, _) => Err(StepFault::DoesNotApply),
        TernaryOp::Update(_) => Err(StepFault::DoesNotApply),
    }
}

// ---- a term for the variable

/// The term is in the range of the quantifier, and then the body for it as one more hypothesis.
fn hyp_at_term(
    alloc: Global,
    number: &Term,
    low: &Term,
    high: &Term,
    body: &Term,
) -> Result<Changes, AllocError>
    ensures { IfOk result (λ cs. cs ≡ changes.Two (change_goal (in_range number.now low.now high.now)) (change_hyp (opened number.now body.now))) }
{
    let first = range_goal(alloc, number, low, high)?;
    let body = opened(alloc, number, body)?;
    let second = hyp(alloc, body)?;
    Ok(Changes::Two(first, second))
}

/// The term is in the range of the quantifier, and the body holds for it.
fn goal_at_term(
    alloc: Global,
    number: &Term,
    low: &Term,
    high: &Term,
    body: &Term,
) -> Result<Changes, AllocError>
    ensures { IfOk result (λ cs. cs ≡ changes.Two (change_goal (in_range number.now low.now high.now)) (change_goal (opened number.now body.now))) }
{
    let first = range_goal(alloc, number, low, high)?;
    let body = opened(alloc, number, body)?;
    Ok(Changes::Two(first, goal(alloc, body)))
}

/// `for all` as a hypothesis, at a term.
fn inst_all(
    alloc: Global,
    sequent: &Sequent,
    number: &Term,
    hyp: &Term,
    low: &Term,
    high: &Term,
    body: &Term,
) -> Result<Changes, StepFault>
    ensures { Leaves result sequent.now (inst_all Quantifier.All sequent.now number.now hyp.now low.now high.now body.now) }
{
    if !stands_alone(alloc, hyp)? {
        return Err(StepFault::DoesNotApply);
    }
    Ok(hyp_at_term(alloc, number, low, high, body)?)
}

/// `for some` as a goal, at a term.
fn give_some(
    alloc: Global,
    sequent: &Sequent,
    number: &Term,
    low: &Term,
    high: &Term,
    body: &Term,
) -> Result<Changes, StepFault>
    ensures { Leaves result sequent.now (give_some Quantifier.Some sequent.now number.now low.now high.now body.now) }
{
    if !stands_alone(alloc, &sequent.goal)? {
        return Err(StepFault::DoesNotApply);
    }
    Ok(goal_at_term(alloc, number, low, high, body)?)
}

/// The step `inst` on a hypothesis that is a quantifier.
fn inst_ternary(
    alloc: Global,
    op: TernaryOp,
    sequent: &Sequent,
    number: &Term,
    hyp: &Term,
    low: &Term,
    high: &Term,
    body: &Term,
) -> Result<Changes, StepFault>
    ensures { Leaves result sequent.now (inst_ternary op sequent.now number.now hyp.now low.now high.now body.now) }
{
    match op {
        TernaryOp::Quantified(Quantifier::All, _) => {
            inst_all(alloc, sequent, number, hyp, low, high, body)
        }
        TernaryOp::Quantified(Quantifier::Some, _) => Err(StepFault::DoesNotApply),
        TernaryOp::Update(_) => Err(StepFault::DoesNotApply),
    }
}

/// The step `give` on a goal that is a quantifier.
fn give_ternary(
    alloc: Global,
    op: TernaryOp,
    sequent: &Sequent,
    number: &Term,
    low: &Term,
    high: &Term,
    body: &Term,
) -> Result<Changes, StepFault>
    ensures { Leaves result sequent.now (give_ternary op sequent.now number.now low.now high.now body.now) }
{
    match op {
        TernaryOp::Quantified(Quantifier::Some, _) => {
            give_some(alloc, sequent, number, low, high, body)
        }
        TernaryOp::Quantified(Quantifier::All, _) => Err(StepFault::DoesNotApply),
        TernaryOp::Update(_) => Err(StepFault::DoesNotApply),
    }
}

/// The step `inst` on a hypothesis.
#[tactic(auto, using(crate::proofs::Layers::layers))]
pub(crate) fn inst_in(
    alloc: Global,
    sequent: &Sequent,
    number: &Term,
    hyp: &Term,
) -> Result<Changes, StepFault>
    ensures { Leaves result sequent.now (inst_in sequent.now number.now hyp.now (out-Term hyp.now)) }
{
    match hyp {
        Term::Ternary(op, low, high, body) => {
            inst_ternary(
                alloc,
                *op.get(),
                sequent,
                number,
                hyp,
                low.get(),
                high.get(),
                body.get(),
            )
        }
        Term::Number(_) => Err(StepFault::DoesNotApply),
        Term::Truth(_) => Err(StepFault::DoesNotApply),
        Term::Variable(_) => Err(StepFault::DoesNotApply),
        Term::Blank(_) => Err(StepFault::DoesNotApply),
        Term::Prefix(_, _) => Err(StepFault::DoesNotApply),
        Term::Infix(_, _, _) => Err(StepFault::DoesNotApply),
        Term::Unary(_, _) => Err(StepFault::DoesNotApply),
        Term::Binary(_, _, _) => Err(StepFault::DoesNotApply),
    }
}

/// The step `give`.
#[tactic(auto, using(crate::proofs::Layers::layers))]
pub(crate) fn give_in(alloc: Global, sequent: &Sequent, number: &Term) -> Result<Changes, StepFault>
    ensures { Leaves result sequent.now (give_in sequent.now number.now (out-Term sequent.now.goal)) }
{
    match &sequent.goal {
        Term::Ternary(op, low, high, body) => {
            give_ternary(
                alloc,
                *op.get(),
                sequent,
                number,
                low.get(),
                high.get(),
                body.get(),
            )
        }
        Term::Number(_) => Err(StepFault::DoesNotApply),
        Term::Truth(_) => Err(StepFault::DoesNotApply),
        Term::Variable(_) => Err(StepFault::DoesNotApply),
        Term::Blank(_) => Err(StepFault::DoesNotApply),
        Term::Prefix(_, _) => Err(StepFault::DoesNotApply),
        Term::Infix(_, _, _) => Err(StepFault::DoesNotApply),
        Term::Unary(_, _) => Err(StepFault::DoesNotApply),
        Term::Binary(_, _, _) => Err(StepFault::DoesNotApply),
    }
}
