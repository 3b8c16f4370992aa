// Linear certificates.
ghost use Rattle.std.specs.Prelude.{◌≡◌, [], ◌&&◌, ◌||◌, true, false, pos, int_le, option_map, length, map, IfOk};
ghost use Rattle.std.specs.List.{list_all};
ghost use Rattle.spx_term.specs.declared.condition.Sequent.{Sequent};
ghost use Rattle.spx_term.specs.declared.term.Term.TheVariants as term;
ghost use Rattle.spx_term.specs.Negation.{is_numeric, opposite};
ghost use Rattle.spx_term.specs.Folding.{folded};
ghost use Rattle.spx_linear.specs.Answers.{Answers};
ghost use Rattle.spx_linear.specs.Linear.{is_comparison};
ghost use Rattle.spx_linear.specs.Refutation.{refutation};
ghost use Rattle.spx_kernel.specs.Certificates.{opposite_of, is_equation, named, listed, all_listed, forms_of, multiplier, refuted_by, by_forms, certified};
ghost use Rattle.spx_kernel.specs.Changes.{Leaves};
ghost use Rattle.spx_kernel.specs.Sequents.{hyp_at};

use crate::change::Changes;
use crate::logic::operation;
use crate::parts::{boxed_fold, hyp_at};
use crate::{Entry, StepFault};
use spx_linear::{Form, LinearFault, is_comparison, linear_form, refutes};
use spx_term::{Sequent, Term, TermForm, TermOp, is_numeric, opposite};
use sqlite_items::{Boxed, Items};
use std::alloc::{AllocError, Global};

/// The opposite of an operation, if it compares and has one.
fn opposite_op(op: TermOp, left: &Term) -> Option<TermOp>
    ensures { result ≡ opposite op (is_numeric left.now) }
{
    if is_numeric(left) {
        return opposite(op, TermForm::Number);
    }
    opposite(op, TermForm::Other)
}

/// The opposite comparison of two terms.
fn opposite_infix(
    alloc: Global,
    op: TermOp,
    left: &Term,
    right: &Term,
) -> Result<Option<Boxed<Term>>, AllocError>
    ensures { IfOk result (λ r. r ≡ option_map (λ p. term.Infix p left.now right.now) (opposite op (is_numeric left.now))) }
{
    match opposite_op(op, left) {
        Some(op) => {
            let comparison = operation(alloc, op, left, right)?;
            Ok(Some(comparison))
        }
        None => Ok(None),
    }
}

/// The opposite of a comparison of integers, where the term is one.
#[tactic(auto, using(crate::proofs::Layers::layers), unfolding(crate::specs::Certificates::opposite_of))]
fn opposite_of(alloc: Global, comparison: &Term) -> Result<Option<Boxed<Term>>, AllocError>
    ensures { IfOk result (λ r. r ≡ opposite_of comparison.now) }
{
    match comparison {
        Term::Infix(op, left, right) => opposite_infix(alloc, *op, left.get(), right.get()),
        Term::Number(_) => Ok(None),
        Term::Truth(_) => Ok(None),
        Term::Variable(_) => Ok(None),
        Term::Blank(_) => Ok(None),
        Term::Prefix(_, _) => Ok(None),
        Term::Unary(_, _) => Ok(None),
        Term::Binary(_, _, _) => Ok(None),
        Term::Ternary(_, _, _, _) => Ok(None),
    }
}

/// Whether a term is an equation.
#[tactic(auto, using(crate::proofs::Layers::layers), unfolding(crate::specs::Certificates::is_equation))]
fn is_equation(comparison: &Term) -> bool
    ensures { result ≡ is_equation comparison.now }
{
    match comparison {
        Term::Infix(op, _, _) => *op == TermOp::Equal,
        Term::Number(_) => false,
        Term::Truth(_) => false,
        Term::Variable(_) => false,
        Term::Blank(_) => false,
        Term::Prefix(_, _) => false,
        Term::Unary(_, _) => false,
        Term::Binary(_, _, _) => false,
        Term::Ternary(_, _, _, _) => false,
    }
}

/// The hypothesis with a number, folded.
fn folded_hyp(
    alloc: Global,
    sequent: &Sequent,
    number: i128,
) -> Result<Option<Boxed<Term>>, AllocError>
    ensures { IfOk result (λ r. r ≡ option_map folded (hyp_at sequent.now number)) }
{
    match hyp_at(sequent, number) {
        Some(hyp) => {
            let folded = boxed_fold(alloc, hyp)?;
            Ok(Some(folded))
        }
        None => Ok(None),
    }
}

/// What an entry names, folded: a hypothesis, or the opposite of the goal.
fn named(
    alloc: Global,
    sequent: &Sequent,
    hyp: Option<i128>,
) -> Result<Option<Boxed<Term>>, AllocError>
    ensures { IfOk result (λ r. r ≡ named sequent.now hyp) }
{
    match hyp {
        Some(number) => folded_hyp(alloc, sequent, number),
        None => {
            let goal = boxed_fold(alloc, &sequent.goal)?;
            opposite_of(alloc, goal.get())
        }
    }
}

/// Whether a term is a comparison that may be multiplied so.
fn is_allowed(comparison: &Term, by: i128) -> bool
    ensures { result ≡ (is_comparison comparison.now && (is_equation comparison.now || int_le (pos 0) by)) }
{
    is_comparison(comparison) && (is_equation(comparison) || 0 <= by)
}

/// What an entry names, where it may be multiplied so.
fn listed(alloc: Global, sequent: &Sequent, entry: Entry) -> Result<Option<Boxed<Term>>, AllocError>
    ensures { IfOk result (λ r. r ≡ listed entry.by (named sequent.now entry.hyp)) }
{
    match named(alloc, sequent, entry.hyp)? {
        Some(comparison) => {
            if is_allowed(comparison.get(), entry.by) {
                return Ok(Some(comparison));
            }
            Ok(None)
        }
        None => Ok(None),
    }
}

/// What all entries name, where each may be listed.
#[tactic(auto, using(crate::proofs::ListedForms::listed_laws))]
fn all_listed(
    alloc: Global,
    sequent: &Sequent,
    entries: &[Entry],
) -> Result<Option<Items<Term>>, AllocError>
    ensures { IfOk result (λ r. r ≡ all_listed sequent.now entries.now) }
{
    let mut terms = Items::new(alloc);
    for entry in entries {
        match listed(alloc, sequent, *entry)? {
            Some(comparison) => terms.push(comparison.into_inner())?,
            None => return Ok(None),
        }
    }
    Ok(Some(terms))
}

/// The forms of comparisons.
#[tactic(auto, using(crate::proofs::ListedForms::form_laws))]
fn forms_of(alloc: Global, terms: &[Term]) -> Result<Items<Form>, LinearFault>
    requires { list_all is_comparison terms.now ≡ true }
    ensures { Answers result (forms_of terms.now) }
{
    let mut forms = Items::new(alloc);
    for comparison in terms {
        match linear_form(alloc, comparison) {
            Ok(form) => forms.push(form)?,
            Err(LinearFault::TooWide) => return Err(LinearFault::TooWide),
            Err(LinearFault::Memory) => return Err(LinearFault::Memory),
        }
    }
    Ok(forms)
}

/// The multipliers of the entries.
fn multipliers(alloc: Global, entries: &[Entry]) -> Result<Items<i128>, AllocError>
    ensures { IfOk result (λ r. r ≡ map multiplier entries.now) }
{
    let mut multipliers = Items::new(alloc);
    for entry in entries {
        multipliers.push(entry.by)?;
    }
    Ok(multipliers)
}

/// Nothing is left where the multiples refute the forms.
fn refuted(alloc: Global, forms: &[Form], multipliers: &[i128]) -> Result<Changes, StepFault>
    requires { length forms.now ≡ length multipliers.now }
    ensures { (s : Sequent) → Leaves result s (refuted_by (refutation forms.now multipliers.now)) }
{
    match refutes(alloc, forms, multipliers) {
        Ok(true) => Ok(Changes::None),
        Ok(false) => Err(StepFault::DoesNotApply),
        Err(LinearFault::TooWide) => Err(StepFault::TooWide),
        Err(LinearFault::Memory) => Err(StepFault::Memory),
    }
}

/// The step `linear` with these comparisons and multipliers.
#[tactic(auto, using(crate::proofs::ListedForms::forms_length))]
fn by_terms(alloc: Global, terms: &[Term], multipliers: &[i128]) -> Result<Changes, StepFault>
    requires comparisons { list_all is_comparison terms.now ≡ true }
    requires lengths { length terms.now ≡ length multipliers.now }
    ensures { (s : Sequent) → Leaves result s (by_forms multipliers.now (forms_of terms.now)) }
{
    match forms_of(alloc, terms) {
        Ok(forms) => refuted(alloc, forms.as_slice(), multipliers),
        Err(LinearFault::TooWide) => Err(StepFault::TooWide),
        Err(LinearFault::Memory) => Err(StepFault::Memory),
    }
}

/// The step `linear`.
#[tactic(auto, using(crate::proofs::ListedForms::entry_laws), unfolding(crate::specs::Certificates::certified))]
pub(crate) fn linear(
    alloc: Global,
    sequent: &Sequent,
    entries: &[Entry],
) -> Result<Changes, StepFault>
    ensures { Leaves result sequent.now (certified sequent.now entries.now) }
{
    match all_listed(alloc, sequent, entries)? {
        Some(terms) => {
            let multipliers = multipliers(alloc, entries)?;
            by_terms(alloc, terms.as_slice(), multipliers.as_slice())
        }
        None => Err(StepFault::DoesNotApply),
    }
}
