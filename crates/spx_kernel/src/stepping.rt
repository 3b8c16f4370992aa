// Steps on sequents.
ghost use Rattle.std.specs.Prelude.{◌≡◌, [], Ok, map, IfOk};
ghost use Rattle.spx_term.specs.declared.term.Term.{out-Term};
ghost use Rattle.spx_term.specs.Plain.{closes};
ghost use Rattle.spx_kernel.specs.Answers.{Answers};
ghost use Rattle.spx_kernel.specs.Changes.{Leaves, changed, listed};
ghost use Rattle.spx_kernel.specs.Sequents.{hyp_at};
ghost use Rattle.spx_kernel.specs.Steps.{at, only_if, by_hyp, cases_in, use_in, inst_in, rewrite_in, step};

use crate::certificate::linear;
use crate::change::{Changes, applied, copied};
use crate::division::div_of;
use crate::element::elem;
use crate::logic::{cases, intro, pick, shown_and_used, split, use_hyp};
use crate::names::is_boolean;
use crate::parts::{boxed_fold, hyp_at};
use crate::quantifier::{give_in, inst_in};
use crate::rewriting::rewrite_in;
use crate::scope::{may_stand, stands_alone};
use crate::{Rule, RuleOf, StepFault};
use spx_simplify::closes;
use spx_term::{Sequent, Term, is_numeric, same};
use sqlite_items::{Boxed, Items};
use std::alloc::{AllocError, Global};

/// The step `hyp` by this hypothesis.
fn by_hyp(alloc: Global, sequent: &Sequent, hyp: &Term) -> Result<Changes, StepFault>
    ensures { Leaves result sequent.now (by_hyp sequent.now hyp.now) }
{
    let hyp = boxed_fold(alloc, hyp)?;
    let goal = boxed_fold(alloc, &sequent.goal)?;
    if same(hyp.get(), goal.get()) {
        return Ok(Changes::None);
    }
    Err(StepFault::DoesNotApply)
}

/// The step `hyp`.
fn hyp(alloc: Global, sequent: &Sequent, number: i128) -> Result<Changes, StepFault>
    ensures { Leaves result sequent.now (at (hyp_at sequent.now number) (by_hyp sequent.now)) }
{
    match hyp_at(sequent, number) {
        Some(hyp) => by_hyp(alloc, sequent, hyp),
        None => Err(StepFault::DoesNotApply),
    }
}

/// The step `plain`.
#[tactic(auto, using(crate::proofs::Layers::plain_laws))]
fn plain(alloc: Global, sequent: &Sequent) -> Result<Changes, StepFault>
    ensures { Leaves result sequent.now (only_if (closes sequent.now.hyps sequent.now.goal) (Ok [])) }
{
    if closes(alloc, sequent)? {
        return Ok(Changes::None);
    }
    Err(StepFault::DoesNotApply)
}

/// The step `cases`.
fn cases_at(alloc: Global, sequent: &Sequent, number: i128) -> Result<Changes, StepFault>
    ensures { Leaves result sequent.now (at (hyp_at sequent.now number) (λ h. cases_in sequent.now (out-Term h))) }
{
    match hyp_at(sequent, number) {
        Some(hyp) => cases(alloc, hyp),
        None => Err(StepFault::DoesNotApply),
    }
}

/// The step `use`.
fn use_at(alloc: Global, sequent: &Sequent, number: i128) -> Result<Changes, StepFault>
    ensures { Leaves result sequent.now (at (hyp_at sequent.now number) (λ h. use_in sequent.now h (out-Term h))) }
{
    match hyp_at(sequent, number) {
        Some(hyp) => use_hyp(alloc, sequent, hyp),
        None => Err(StepFault::DoesNotApply),
    }
}

/// The step `cut`.
#[tactic(auto, unfolding(crate::specs::Steps::step))]
fn cut(alloc: Global, sequent: &Sequent, term: &Term) -> Result<Changes, StepFault>
    ensures { Leaves result sequent.now (step sequent.now (RuleOf.Cut term.now)) }
{
    if !is_boolean(term) {
        return Err(StepFault::DoesNotApply);
    }
    if !may_stand(alloc, sequent, term)? {
        return Err(StepFault::DoesNotApply);
    }
    Ok(shown_and_used(alloc, term, term)?)
}

/// The step `inst` on the hypothesis with a number.
fn inst_at(
    alloc: Global,
    sequent: &Sequent,
    number: i128,
    term: &Term,
) -> Result<Changes, StepFault>
    ensures { Leaves result sequent.now (at (hyp_at sequent.now number) (λ h. inst_in sequent.now term.now h (out-Term h))) }
{
    match hyp_at(sequent, number) {
        Some(hyp) => inst_in(alloc, sequent, term, hyp),
        None => Err(StepFault::DoesNotApply),
    }
}

/// The step `inst`.
#[tactic(auto, unfolding(crate::specs::Steps::step))]
fn inst(alloc: Global, sequent: &Sequent, number: i128, term: &Term) -> Result<Changes, StepFault>
    ensures { Leaves result sequent.now (step sequent.now (RuleOf.Inst number term.now)) }
{
    if !is_numeric(term) {
        return Err(StepFault::DoesNotApply);
    }
    if !may_stand(alloc, sequent, term)? {
        return Err(StepFault::DoesNotApply);
    }
    inst_at(alloc, sequent, number, term)
}

/// The step `give`.
#[tactic(auto, unfolding(crate::specs::Steps::step))]
fn give(alloc: Global, sequent: &Sequent, term: &Term) -> Result<Changes, StepFault>
    ensures { Leaves result sequent.now (step sequent.now (RuleOf.Give term.now)) }
{
    if !is_numeric(term) {
        return Err(StepFault::DoesNotApply);
    }
    if !may_stand(alloc, sequent, term)? {
        return Err(StepFault::DoesNotApply);
    }
    give_in(alloc, sequent, term)
}

/// The step `div`.
#[tactic(auto, unfolding(crate::specs::Steps::step))]
fn div(alloc: Global, sequent: &Sequent, term: &Term) -> Result<Changes, StepFault>
    ensures { Leaves result sequent.now (step sequent.now (RuleOf.Div term.now)) }
{
    if !stands_alone(alloc, term)? {
        return Err(StepFault::DoesNotApply);
    }
    div_of(alloc, term)
}

/// The step `rewrite`.
fn rewrite(
    alloc: Global,
    sequent: &Sequent,
    number: i128,
    place: Option<i128>,
) -> Result<Changes, StepFault>
    ensures { Leaves result sequent.now (at (hyp_at sequent.now number) (λ h. rewrite_in sequent.now place (out-Term h))) }
{
    match hyp_at(sequent, number) {
        Some(hyp) => rewrite_in(alloc, sequent, place, hyp),
        None => Err(StepFault::DoesNotApply),
    }
}

/// What a step changes of a sequent.
#[tactic(auto, unfolding(crate::specs::Steps::step))]
fn changes_of(alloc: Global, sequent: &Sequent, rule: &Rule) -> Result<Changes, StepFault>
    ensures { Leaves result sequent.now (step sequent.now rule.now) }
{
    match rule {
        RuleOf::Hyp(number) => hyp(alloc, sequent, *number),
        RuleOf::Plain => plain(alloc, sequent),
        RuleOf::Split => split(alloc, sequent),
        RuleOf::Intro => intro(alloc, sequent),
        RuleOf::PickLeft => pick(alloc, sequent, true),
        RuleOf::PickRight => pick(alloc, sequent, false),
        RuleOf::Cases(number) => cases_at(alloc, sequent, *number),
        RuleOf::UseHyp(number) => use_at(alloc, sequent, *number),
        RuleOf::Cut(term) => cut(alloc, sequent, term),
        RuleOf::Inst(number, term) => inst(alloc, sequent, *number, term),
        RuleOf::Give(term) => give(alloc, sequent, term),
        RuleOf::Rewrite(number, place) => rewrite(alloc, sequent, *number, *place),
        RuleOf::Linear(entries) => linear(alloc, sequent, entries.as_slice()),
        RuleOf::Elem => elem(alloc, sequent),
        RuleOf::Div(term) => div(alloc, sequent, term),
    }
}

/// The sequents that are left of one with these changes.
fn left_of(
    alloc: Global,
    sequent: Boxed<Sequent>,
    changes: Changes,
) -> Result<Items<Sequent>, AllocError>
    ensures { IfOk result (λ left. left ≡ map (changed sequent) (listed changes)) }
{
    let Sequent { hyps, goal } = sequent.into_inner();
    let goal = Boxed::new(alloc, goal)?;
    applied(alloc, hyps, goal, changes)
}

/// The sequents that a step leaves, of which the last one takes the hypotheses.
fn stepped(alloc: Global, sequent: Boxed<Sequent>, rule: &Rule) -> Result<Items<Sequent>, StepFault>
    ensures { Answers result (step sequent rule.now) }
{
    match changes_of(alloc, sequent.get(), rule) {
        Ok(changes) => Ok(left_of(alloc, sequent, changes)?),
        Err(StepFault::DoesNotApply) => Err(StepFault::DoesNotApply),
        Err(StepFault::TooWide) => Err(StepFault::TooWide),
        Err(StepFault::Memory) => Err(StepFault::Memory),
    }
}

/// The sequents that a step leaves, or why it gives none.
pub fn step(alloc: Global, sequent: &Sequent, rule: &Rule) -> Result<Items<Sequent>, StepFault>
    ensures { Answers result (step sequent.now rule.now) }
{
    let copy = copied(alloc, sequent)?;
    stepped(alloc, copy, rule)
}

/// The same, where the sequent is not needed any more: the last of the sequents that are left takes its hypotheses.
pub fn step_on(alloc: Global, sequent: Sequent, rule: &Rule) -> Result<Items<Sequent>, StepFault>
    ensures { Answers result (step sequent rule.now) }
{
    let boxed = Boxed::new(alloc, sequent)?;
    stepped(alloc, boxed, rule)
}
