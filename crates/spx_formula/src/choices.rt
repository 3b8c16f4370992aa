// What is known of the value of a selector in an alternative, by ids.
ghost use Rattle.std.specs.Prelude.{◌≡◌, ◌<◌, [], length, map, IfOk, OnOk};
ghost use Rattle.spx_term.specs.declared.term.Term.TheVariants.{Prefix};
ghost use Rattle.spx_term.specs.declared.term.TermPrefix.TheVariants.{Not};
ghost use Rattle.spx_formula.specs.Choices.{alternative_facts, and_these, choice_term, choices_term, one_of};
ghost use Rattle.spx_arena.specs.Claims.{AreIds, trees_at};
ghost use Rattle.spx_arena.specs.Sharing.{tree_at, Adds};
ghost use Rattle.spx_formula.specs.Added.{AddsAll, AddsFacts, choices_of, facts_from};

use crate::terms::{between, negated_id, with_number};
use spx_arena::{Node, TermId, Terms};
use spx_core::{CoreAlternative, CoreChoice};
use spx_term::TermOp;
use sqlite_items::Items;
use std::alloc::{AllocError, Global};

/// That a value is the one of a choice, or lies between its bounds.
fn choice_id(terms: &mut Terms, value: TermId, choice: &CoreChoice) -> Result<TermId, AllocError>
    requires { value.0 < length terms.old }
    ensures { IfOk result (λ id. Adds terms.old terms.new id (choice_term (tree_at terms.old value) choice.now)) }
{
    match &choice.high {
        None => with_number(terms, value, TermOp::Equal, choice.span.first),
        Some(_) => {
            let low = terms.make(Node::Number(choice.span.first))?;
            let high = terms.make(Node::Number(choice.span.last))?;
            between(terms, value, low, high)
        }
    }
}

/// That a value is the one of a choice so far, or of one of these.
fn one_of(
    terms: &mut Terms,
    value: TermId,
    so_far: TermId,
    choices: &[CoreChoice],
) -> Result<TermId, AllocError>
    requires { (value.0 < length terms.old) × (so_far.0 < length terms.old) }
    ensures { IfOk result (λ id. Adds terms.old terms.new id (one_of (tree_at terms.old value) (tree_at terms.old so_far) choices.now)) }
{
    let mut all = so_far;
    for choice in choices {
        let next = choice_id(terms, value, choice)?;
        all = terms.infix(TermOp::Or, all, next)?;
    }
    Ok(all)
}

/// That a value is the one of a choice.
fn choices_id(
    terms: &mut Terms,
    value: TermId,
    choices: &[CoreChoice],
) -> Result<TermId, AllocError>
    requires { value.0 < length terms.old }
    ensures { IfOk result (λ id. Adds terms.old terms.new id (choices_term (tree_at terms.old value) choices.now)) }
{
    match choices {
        [] => {
            let none = terms.make(Node::Truth(false))?;
            Ok(none)
        }
        [choice, more @ ..] => {
            let first = choice_id(terms, value, choice)?;
            one_of(terms, value, first, more)
        }
    }
}

/// The negations of several terms.
fn negations(alloc: Global, terms: &mut Terms, ids: &[TermId]) -> Result<Items<TermId>, AllocError>
    requires { AreIds (length terms.old) ids.now }
    ensures { IfOk result (λ all. AddsAll terms.old terms.new all (map (Prefix Not) (trees_at terms.old ids.now))) }
{
    let mut all = Items::new(alloc);
    for id in ids {
        all.push(negated_id(terms, *id)?)?;
    }
    Ok(all)
}

/// What is known where these choices have the value. Their term is added to those of earlier ones.
fn alternative_facts(
    alloc: Global,
    terms: &mut Terms,
    value: TermId,
    earlier: &mut Items<TermId>,
    choices: &Option<Items<CoreChoice>>,
) -> Result<Items<TermId>, AllocError>
    requires value { value.0 < length terms.old }
    requires earlier { AreIds (length terms.old) earlier.old }
    ensures facts { IfOk result (λ facts. AddsAll terms.old terms.new facts (alternative_facts (tree_at terms.old value) (trees_at terms.old earlier.old) choices.now)) }
    ensures earlier { OnOk result (AddsAll terms.old terms.new earlier.new (and_these (tree_at terms.old value) (trees_at terms.old earlier.old) choices.now)) }
{
    match choices {
        None => {
            let facts = negations(alloc, terms, earlier.as_slice())?;
            Ok(facts)
        }
        Some(choices) => {
            let chosen = choices_id(terms, value, choices.as_slice())?;
            earlier.push(chosen)?;
            let facts = terms.conjuncts(alloc, chosen)?;
            Ok(facts)
        }
    }
}

/// What is known in each of several alternatives.
pub fn facts_of_all(
    alloc: Global,
    terms: &mut Terms,
    value: TermId,
    alternatives: &[CoreAlternative],
) -> Result<Items<Items<TermId>>, AllocError>
    requires { value.0 < length terms.old }
    ensures { IfOk result (AddsFacts terms.old terms.new (facts_from (tree_at terms.old value) [] (map choices_of alternatives.now))) }
{
    let mut earlier = Items::new(alloc);
    let mut all = Items::new(alloc);
    for alternative in alternatives {
        let choices = &alternative.choices;
        all.push(alternative_facts(alloc, terms, value, &mut earlier, choices)?)?;
    }
    Ok(all)
}
