// What checks ask to be shown, by ids.
ghost use Rattle.std.specs.Prelude.{◌≡◌, ◌<◌, [], ◌∷◌, length, IfOk};
ghost use Rattle.spx_term.specs.declared.term.Term.TheVariants as term;
ghost use Rattle.spx_term.specs.Goals.{goal_of};
ghost use Rattle.spx_formula.specs.Goals.{guarded, in_range, in_type, under};
ghost use Rattle.spx_formula.specs.Goals.{range_goal};
ghost use Rattle.spx_arena.specs.Claims.{AreIds, trees_at};
ghost use Rattle.spx_arena.specs.Sharing.{tree_at, Adds};
ghost use Rattle.spx_formula.specs.Added.{AddsAll};

use crate::terms::with_number;
use spx_arena::{Node, TermId, Terms};
use spx_core::{Class, Subtype};
use spx_term::{TermOp, UnaryOp};
use sqlite_items::Items;
use std::alloc::{AllocError, Global};

/// The comparison as the only goal.
pub fn one_goal(
    alloc: Global,
    terms: &mut Terms,
    left: TermId,
    op: TermOp,
    bound: i128,
) -> Result<Items<TermId>, AllocError>
    requires { left.0 < length terms.old }
    ensures { IfOk result (λ goals. AddsAll terms.old terms.new goals (term.Infix op (tree_at terms.old left) (term.Number bound) ∷ [])) }
{
    let goal = with_number(terms, left, op, bound)?;
    Items::from_slice(alloc, &[goal])
}

/// That a term lies between two numbers.
pub fn in_range(
    alloc: Global,
    terms: &mut Terms,
    first: i128,
    last: i128,
    value: TermId,
) -> Result<Items<TermId>, AllocError>
    requires { value.0 < length terms.old }
    ensures { IfOk result (λ goals. AddsAll terms.old terms.new goals (in_range first last (tree_at terms.old value))) }
{
    let low = with_number(terms, value, TermOp::GreaterOrEqual, first)?;
    let high = with_number(terms, value, TermOp::LessOrEqual, last)?;
    Items::from_slice(alloc, &[low, high])
}

/// That a term lies in a type, with its parts.
pub fn in_type(
    alloc: Global,
    terms: &mut Terms,
    subtype: Subtype,
    value: TermId,
) -> Result<Items<TermId>, AllocError>
    requires { value.0 < length terms.old }
    ensures { IfOk result (λ facts. AddsAll terms.old terms.new facts (in_type subtype (tree_at terms.old value))) }
{
    match subtype.base.class {
        Class::Integer | Class::Enumeration => {
            in_range(alloc, terms, subtype.first, subtype.last, value)
        }
        Class::Boolean => Ok(Items::new(alloc)),
        Class::Composite => {
            let goal = terms.make(Node::Unary(UnaryOp::In(subtype.base.id.0), value))?;
            Items::from_slice(alloc, &[goal])
        }
    }
}

/// That two bounds lie in a type where there is a value between them, as the only goal.
pub fn range_goal(
    alloc: Global,
    terms: &mut Terms,
    subtype: Subtype,
    low: TermId,
    high: TermId,
) -> Result<Items<TermId>, AllocError>
    requires { (low.0 < length terms.old) × (high.0 < length terms.old) }
    ensures { IfOk result (λ goals. AddsAll terms.old terms.new goals (range_goal subtype (tree_at terms.old low) (tree_at terms.old high) ∷ [])) }
{
    let some = terms.infix(TermOp::LessOrEqual, low, high)?;
    let first = with_number(terms, low, TermOp::GreaterOrEqual, subtype.first)?;
    let last = with_number(terms, high, TermOp::LessOrEqual, subtype.last)?;
    let both = terms.infix(TermOp::And, first, last)?;
    let goal = terms.infix(TermOp::Implies, some, both)?;
    Items::from_slice(alloc, &[goal])
}

/// One goal for several.
#[cycle(goal_of)]
#[tactic(auto, using(crate::proofs::GoalSteps::goal_laws))]
fn goal_of(terms: &mut Terms, goals: &[TermId]) -> Result<TermId, AllocError>
    requires { AreIds (length terms.old) goals.now }
    ensures { IfOk result (λ id. Adds terms.old terms.new id (goal_of (trees_at terms.old goals.now))) }
{
    match goals {
        [] => {
            let goal = terms.make(Node::Truth(true))?;
            Ok(goal)
        }
        [goal] => Ok(*goal),
        [goal, more @ ..] => {
            let more = goal_of(terms, more)?;
            let both = terms.infix(TermOp::And, *goal, more)?;
            Ok(both)
        }
    }
}

/// The term, where these left sides are true.
#[cycle(under)]
#[tactic(auto, using(crate::proofs::GoalSteps::goal_laws))]
fn under(terms: &mut Terms, lefts: &[TermId], goal: TermId) -> Result<TermId, AllocError>
    requires lefts { AreIds (length terms.old) lefts.now }
    requires within { goal.0 < length terms.old }
    ensures { IfOk result (λ id. Adds terms.old terms.new id (under (trees_at terms.old lefts.now) (tree_at terms.old goal))) }
{
    match lefts {
        [] => Ok(goal),
        [left, more @ ..] => {
            let right = under(terms, more, goal)?;
            let whole = terms.infix(TermOp::Implies, *left, right)?;
            Ok(whole)
        }
    }
}

/// The goals of a check that stands under these left sides.
pub fn guarded(
    alloc: Global,
    terms: &mut Terms,
    lefts: &[TermId],
    goals: Items<TermId>,
) -> Result<Items<TermId>, AllocError>
    requires lefts { AreIds (length terms.old) lefts.now }
    requires goals { AreIds (length terms.old) goals }
    ensures { IfOk result (λ all. AddsAll terms.old terms.new all (guarded (trees_at terms.old lefts.now) (trees_at terms.old goals))) }
{
    match lefts {
        [] => Ok(goals),
        [_, ..] => {
            let goal = goal_of(terms, goals.as_slice())?;
            let whole = under(terms, lefts, goal)?;
            Items::from_slice(alloc, &[whole])
        }
    }
}
