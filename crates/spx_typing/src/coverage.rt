// Which values have an alternative, and which have two (Ada 95 RM 5.4).
ghost use Rattle.std.specs.Prelude.{◌≡◌, int_le, ◌++◌, ◌&&◌, map};
ghost use Rattle.std.specs.List.{list_all, list_any};
ghost use Rattle.spx_core.specs.Commands as commands;
ghost use Rattle.spx_core.specs.Commands.{given_by, spans_of};
ghost use Rattle.spx_core.specs.Statements as rules;
ghost use Rattle.spx_core.specs.Types as is;
ghost use Rattle.spx_typing.specs.Choices.{alternatives_in, is_kept, next_of, spans_in};

use crate::choices::{is_for_others, listed_by};
use spx_core::{CoreAlternative, CoreChoice, Span};
use spx_types::is_between;

/// The one value of a choice, or those between its bounds.
fn values_of(choice: &CoreChoice) -> Span
    ensures { result ≡ given_by choice.now.high choice.now.span }
{
    match &choice.high {
        Some(_) => choice.span,
        None => Span {
            first: choice.span.first,
            last: choice.span.first,
        },
    }
}

fn has_values(span: Span) -> bool
    ensures { result ≡ int_le span.first span.last }
{
    span.first <= span.last
}

fn meet(a: Span, b: Span) -> bool
    ensures { result ≡ (int_le a.first b.last && int_le b.first a.last) }
{
    a.first <= b.last && b.first <= a.last
}

/// Whether two have a value in common.
fn overlap(a: Span, b: Span) -> bool
    ensures { result ≡ is.overlap a b }
{
    has_values(a) && has_values(b) && meet(a, b)
}

fn overlaps(span: Span, choices: &[CoreChoice]) -> bool
    ensures { result ≡ list_any (is.overlap span) (spans_of choices.now) }
{
    for choice in choices {
        if overlap(span, values_of(choice)) {
            return true;
        }
    }
    false
}

#[tactic(auto, using(crate::proofs::ChoiceSteps::any_in))]
fn overlaps_among(span: Span, alternatives: &[CoreAlternative]) -> bool
    ensures { result ≡ list_any (is.overlap span) (spans_in alternatives.now) }
{
    for alternative in alternatives {
        if overlaps(span, listed_by(alternative)) {
            return true;
        }
    }
    false
}

/// Whether each choice has no value in common with one after it, or with a later alternative.
#[tactic(auto, using(crate::proofs::ChoiceSteps::apart_after))]
fn are_apart_before(choices: &[CoreChoice], later: &[CoreAlternative]) -> bool
    ensures { (result && is.are_apart (spans_in later.now)) ≡ is.are_apart (spans_of choices.now ++ spans_in later.now) }
{
    for index in 0..choices.len() {
        let span = values_of(&choices[index]);
        if overlaps(span, &choices[index + 1..]) || overlaps_among(span, later) {
            return false;
        }
    }
    true
}

/// Whether no two choices have a value in common.
#[tactic(auto, using(crate::proofs::ChoiceSteps::spans_step))]
fn are_apart(alternatives: &[CoreAlternative]) -> bool
    ensures { result ≡ is.are_apart (spans_in alternatives.now) }
{
    for index in 0..alternatives.len() {
        let choices = listed_by(&alternatives[index]);
        if !are_apart_before(choices, &alternatives[index + 1..]) {
            return false;
        }
    }
    true
}

fn is_chosen_by(n: i128, choices: &[CoreChoice]) -> bool
    ensures { result ≡ is.is_chosen n (spans_of choices.now) }
{
    for choice in choices {
        let values = values_of(choice);
        if is_between(values.first, values.last, n) {
            return true;
        }
    }
    false
}

#[tactic(auto, using(crate::proofs::ChoiceSteps::any_in))]
fn is_chosen(n: i128, alternatives: &[CoreAlternative]) -> bool
    ensures { result ≡ is.is_chosen n (spans_in alternatives.now) }
{
    for alternative in alternatives {
        if is_chosen_by(n, listed_by(alternative)) {
            return true;
        }
    }
    false
}

/// Whether the value after a choice, if it is one of the values, is chosen.
#[tactic(auto, using(crate::proofs::ChoiceSteps::next_within))]
fn is_next_chosen(values: Span, choice: Span, alternatives: &[CoreAlternative]) -> bool
    ensures { result ≡ is_kept values (spans_in alternatives.now) (next_of choice) }
{
    if choice.last >= values.last {
        return true;
    }
    let next = choice.last + 1;
    next < values.first || is_chosen(next, alternatives)
}

fn are_next_chosen(values: Span, choices: &[CoreChoice], alternatives: &[CoreAlternative]) -> bool
    ensures { result ≡ list_all (is_kept values (spans_in alternatives.now)) (map next_of (spans_of choices.now)) }
{
    for choice in choices {
        if !is_next_chosen(values, values_of(choice), alternatives) {
            return false;
        }
    }
    true
}

/// Whether each value is chosen.
#[tactic(auto, using(crate::proofs::ChoiceSteps::kept_in))]
fn cover(values: Span, alternatives: &[CoreAlternative]) -> bool
    ensures { result ≡ is.cover values.first values.last (spans_in alternatives.now) }
{
    if values.first <= values.last && !is_chosen(values.first, alternatives) {
        return false;
    }
    for alternative in alternatives {
        if !are_next_chosen(values, listed_by(alternative), alternatives) {
            return false;
        }
    }
    true
}

#[tactic(auto, using(crate::proofs::ChoiceSteps::others_or_more))]
fn has_others(alternatives: &[CoreAlternative]) -> bool
    ensures { result ≡ commands.has_others (alternatives_in alternatives.now) }
{
    for alternative in alternatives {
        if is_for_others(alternative) {
            return true;
        }
    }
    false
}

/// Whether each of the values has one alternative, and no value has two.
pub fn are_given_once(values: Span, alternatives: &[CoreAlternative]) -> bool
    ensures { result ≡ rules.are_given_once values (alternatives_in alternatives.now) }
{
    are_apart(alternatives) && (has_others(alternatives) || cover(values, alternatives))
}
