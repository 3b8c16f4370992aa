// Sequents and claims that need no proof.
ghost use Rattle.std.specs.Prelude.{◌≡◌, ◌<◌, ◌↔◌, List, [], ◌∷◌, length, map, IfOk, IsTrue};
ghost use Rattle.spx_term.specs.Goals.{goal_of};
ghost use Rattle.spx_term.specs.Plain.{Plain};
ghost use Rattle.spx_simplify.specs.ClosedClaims.{closes_claim};
ghost use Rattle.spx_arena.specs.Sharing.{Grows};
ghost use Rattle.spx_arena.specs.Claims.{AreIds, AreLists, trees_at, claims_in, IsWhole};
ghost use Rattle.spx_arena.specs.Sharing.{Adds};
ghost use Rattle.spx_simplify.specs.Questions.{AreGoals, Asked, HasFacts};

use crate::judge::{Question, answers};
use spx_arena::{FactLists, FactsId, Node, SharedClaim, SharedClaims, TermId, Terms};
use spx_term::{Sequent, Term, TermOp};
use sqlite_items::Items;
use std::alloc::{AllocError, Global};

/// Whether a sequent is plain.
pub fn closes(alloc: Global, sequent: &Sequent) -> Result<bool, AllocError>
    ensures { IfOk result (λ yes. IsTrue yes ↔ Plain sequent.now.hyps sequent.now.goal) }
{
    let mut terms = Terms::new(alloc);
    let mut lists = FactLists::new(alloc);
    let facts = linked(&mut terms, &mut lists, sequent.hyps.as_slice())?;
    let goal = terms.intern(&sequent.goal)?;
    let answers = answers(alloc, &mut terms, &lists, &[Question { facts, goal }])?;
    let yes = answers.as_slice()[0];
    Ok(yes)
}

/// A list of these facts, where there are no lists yet.
fn linked(terms: &mut Terms, lists: &mut FactLists, hyps: &[Term]) -> Result<FactsId, AllocError>
    requires { lists.old ≡ [] ∷ [] }
    ensures { IfOk result (λ facts. HasFacts terms.new lists.new facts hyps.now) }
{
    let mut facts = lists.none();
    for hyp in hyps {
        let fact = terms.intern(hyp)?;
        facts = lists.more(facts, fact)?;
    }
    Ok(facts)
}

/// Which of the claims need no proof. The claims stay as they are, also where memory runs out.
pub fn closed_claims(alloc: Global, claims: &mut SharedClaims) -> Result<Items<bool>, AllocError>
    requires { IsWhole claims.old }
    ensures same { claims_in claims.new ≡ claims_in claims.old }
    ensures closed { IfOk result (λ closed. closed ≡ map closes_claim (claims_in claims.old)) }
{
    let questions = questions_of(alloc, &mut claims.terms, claims.list.as_slice())?;
    let closed = answers(
        alloc,
        &mut claims.terms,
        &claims.facts,
        questions.as_slice(),
    )?;
    Ok(closed)
}

/// A question for each of the claims.
fn questions_of(
    alloc: Global,
    terms: &mut Terms,
    list: &[SharedClaim],
) -> Result<Items<Question>, AllocError>
    requires { AreGoals (length terms.old) list.now }
    ensures grown { Grows terms.old terms.new }
    ensures asked { IfOk result (Asked terms.old terms.new list.now) }
{
    let mut questions = Items::new(alloc);
    for claim in list {
        let goal = conjunction(terms, claim.goals.as_slice())?;
        questions.push(Question {
            facts: claim.facts,
            goal,
        })?;
    }
    Ok(questions)
}

/// `G1 and (G2 and ..)`
fn conjunction(terms: &mut Terms, goals: &[TermId]) -> Result<TermId, AllocError>
    requires { AreIds (length terms.old) goals.now }
    ensures grown { Grows terms.old terms.new }
    ensures added { IfOk result (λ id. Adds terms.old terms.new id (goal_of (trees_at terms.old goals.now))) }
{
    if goals.len() == 0 {
        return terms.make(Node::Truth(true));
    }
    let mut at = goals.len() - 1;
    let mut all = goals[at];
    'join: while at > 0 {
        at -= 1;
        all = terms.infix(TermOp::And, goals[at], all)?;
    }
    Ok(all)
}
