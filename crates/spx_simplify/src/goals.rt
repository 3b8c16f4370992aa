// Whether goals follow from the facts.
ghost use Rattle.std.specs.Prelude.{◌≡◌, ◌<◌, ◌++◌, List, length, IfOk, OnOk, MatchOption};
ghost use Rattle.spx_term.specs.declared.term.Term.{Term};
ghost use Rattle.spx_term.specs.Conjuncts.{conjuncts};
ghost use Rattle.spx_term.specs.Plain.{is_plain};
ghost use Rattle.spx_arena.specs.Sharing.{tree_at};
ghost use Rattle.spx_simplify.specs.Tables.{Sized, Knows};
ghost use Rattle.spx_simplify.specs.Verdicts.{Parts, IsVerdict, Ends, GoesOn};

use crate::assumptions::{assume, take_back};
use crate::intervals::settles;
use crate::known::{Known, MOST_DEPTH};
use spx_arena::{Node, TermId, Terms};
use spx_term::TermOp;
use sqlite_items::Items;
use std::alloc::{AllocError, Global};

/// What a goal comes down to.
#[derive(Clone, Copy)]
enum Verdict {
    /// Whether it follows.
    Settled(bool),
    /// It follows where the first part does, and then what is left is judged.
    First(TermId, Left),
    /// It follows where the second part does from the facts and the parts of the first.
    Under(TermId, TermId),
}

/// A goal that is judged only where the answer before it is `after`, which else is the answer.
#[derive(Clone, Copy)]
struct Left {
    after: bool,
    goal: TermId,
}

/// What a goal comes down to, without a look at its parts.
fn settle(known: &mut Known, terms: &Terms, goal: TermId) -> Result<Verdict, AllocError>
    requires within { goal.0 < length terms.now }
    requires sized { Sized (length terms.now) known.old }
    ensures sized { OnOk result (Sized (length terms.now) known.new) }
    ensures knows { OnOk result ((hyps : List Term) → Knows terms.now hyps known.old → Knows terms.now hyps known.new) }
    ensures parts { IfOk result (Parts terms.now goal) }
    ensures verdict { IfOk result (λ found. (hyps : List Term) → Knows terms.now hyps known.old → IsVerdict terms.now hyps goal found) }
{
    let node = terms.node(goal);
    if known.has(goal) {
        return Ok(Verdict::Settled(true));
    }
    match node {
        Node::Truth(value) => Ok(Verdict::Settled(value)),
        Node::Infix(op, left, right) => match op {
            TermOp::And => Ok(Verdict::First(
                left,
                Left {
                    after: true,
                    goal: right,
                },
            )),
            TermOp::Or => Ok(Verdict::First(
                left,
                Left {
                    after: false,
                    goal: right,
                },
            )),
            TermOp::Implies => Ok(Verdict::Under(left, right)),
            _ => {
                let low = known.interval(terms, left, MOST_DEPTH)?;
                let high = known.interval(terms, right, MOST_DEPTH)?;
                Ok(Verdict::Settled(settles(op, low, high)))
            }
        },
        Node::Number(_) => Ok(Verdict::Settled(false)),
        Node::Variable(_) => Ok(Verdict::Settled(false)),
        Node::Prefix(_, _) => Ok(Verdict::Settled(false)),
        Node::Blank(_) => Ok(Verdict::Settled(false)),
        Node::Unary(_, _) => Ok(Verdict::Settled(false)),
        Node::Binary(_, _, _) => Ok(Verdict::Settled(false)),
        Node::Ternary(_, _, _, _) => Ok(Verdict::Settled(false)),
    }
}

/// The next goal that is judged after this answer. Where there is none, it is the answer to all.
fn next(left: &mut Items<Left>, yes: bool) -> Option<TermId>
    ensures { MatchOption result (Ends left.old yes) (GoesOn left.old left.new yes) }
{
    'left: while let Some(last) = left.pop() {
        if last.after == yes {
            return Some(last.goal);
        }
    }
    None
}

/// Whether a goal follows from the facts. It calls itself only at the right side of an implication.
#[cycle(follows)]
pub fn follows(
    alloc: Global,
    known: &mut Known,
    terms: &Terms,
    goal: TermId,
) -> Result<bool, AllocError>
    requires within { goal.0 < length terms.now }
    requires sized { Sized (length terms.now) known.old }
    ensures sized { OnOk result (Sized (length terms.now) known.new) }
    ensures knows { OnOk result ((hyps : List Term) → Knows terms.now hyps known.old → Knows terms.now hyps known.new) }
    ensures plain { IfOk result (λ yes. (hyps : List Term) → Knows terms.now hyps known.old → yes ≡ is_plain hyps (tree_at terms.now goal)) }
{
    let mut left = Items::new(alloc);
    let mut at = goal;
    'goals: loop {
        let found = settle(known, terms, at)?;
        match found {
            Verdict::First(first, second) => {
                left.push(second)?;
                at = first;
                continue 'goals;
            }
            Verdict::Settled(yes) => match next(&mut left, yes) {
                Some(goal) => {
                    at = goal;
                    continue 'goals;
                }
                None => return Ok(yes),
            },
            Verdict::Under(fact, second) => {
                let yes = follows_under(alloc, known, terms, fact, second)?;
                match next(&mut left, yes) {
                    Some(goal) => {
                        at = goal;
                        continue 'goals;
                    }
                    None => return Ok(yes),
                }
            }
        }
    }
}

/// Whether a goal follows from the facts and the parts of one more.
#[cycle(follows)]
fn follows_under(
    alloc: Global,
    known: &mut Known,
    terms: &Terms,
    fact: TermId,
    goal: TermId,
) -> Result<bool, AllocError>
    requires fact { fact.0 < length terms.now }
    requires goal { goal.0 < length terms.now }
    requires sized { Sized (length terms.now) known.old }
    ensures sized { OnOk result (Sized (length terms.now) known.new) }
    ensures knows { OnOk result ((hyps : List Term) → Knows terms.now hyps known.old → Knows terms.now hyps known.new) }
    ensures plain { IfOk result (λ yes. (hyps : List Term) → Knows terms.now hyps known.old → yes ≡ is_plain (hyps ++ conjuncts (tree_at terms.now fact)) (tree_at terms.now goal)) }
{
    let parts = terms.conjuncts(alloc, fact)?;
    let changes = assume(alloc, known, terms, parts.as_slice())?;
    let yes = follows(alloc, known, terms, goal)?;
    take_back(known, terms, changes);
    Ok(yes)
}
