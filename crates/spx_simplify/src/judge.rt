// Which questions are answered by yes.
ghost use Rattle.std.specs.Prelude.{◌≡◌, ◌<◌, ◌||◌, ◌++◌, false, List, [], ◌∷◌, length, map, IfOk, OnOk};
ghost use Rattle.spx_term.specs.declared.term.Term.{Term};
ghost use Rattle.spx_term.specs.declared.term.Term.TheVariants as term;
ghost use Rattle.spx_term.specs.Plain.{is_among, is_plain};
ghost use Rattle.spx_arena.specs.Sharing.{tree_at, Grows, IsId};
ghost use Rattle.spx_arena.specs.Claims.{AreLists};
ghost use Rattle.spx_arena.specs.Facts.{facts_at};
ghost use Rattle.spx_simplify.specs.Folds.{AreFolds};
ghost use Rattle.spx_simplify.specs.Tables.{Sized, Knows};
ghost use Rattle.spx_simplify.specs.Questions.{AreQuestions, answer, Judges};

use crate::folding::{fold_at, fold_terms};
use crate::goals::follows;
use crate::known::{Change, Known};
use spx_arena::{FactLists, FactsId, Node, TermId, Terms};
use sqlite_items::Items;
use std::alloc::{AllocError, Global};

/// Whether the facts of a list make a goal plain.
#[derive(Clone, Copy)]
pub struct Question {
    pub facts: FactsId,
    pub goal: TermId,
}

/// What the facts of a list say, and how they are taken back one by one.
#[derive(Drop)]
struct Judge {
    known: Known,
    trail: Items<Change>,
    at: FactsId,
}

/// A list of facts, and its last one.
#[derive(Clone, Copy)]
struct Step {
    to: FactsId,
    fact: TermId,
}

impl Judge {
    /// Takes the last fact back.
    fn back(&mut self, terms: &Terms, facts: &FactLists)
        requires some { 0 < self.old.at.0 }
        requires judges { Judges terms.now facts.now self.old }
        ensures judges { Judges terms.now facts.now self.new }
        ensures back { self.new.at.0 < self.old.at.0 }
    {
        let link = facts.link(self.at);
        match self.trail.pop() {
            Some(change) => {
                self.known.undo(terms, change);
                self.at = link.before;
                return;
            }
            None => return,
        }
    }

    /// Adds the last fact of a list, where those before it are known.
    fn forth(
        &mut self,
        terms: &Terms,
        folds: &[TermId],
        facts: &FactLists,
        step: Step,
    ) -> Result<(), AllocError>
        requires folds { AreFolds terms.now folds.now }
        requires facts { AreLists (length folds.now) facts.now }
        requires within { step.to.0 < length facts.now }
        requires next { facts_at facts.now step.to ≡ facts_at facts.now self.old.at ++ step.fact ∷ [] }
        requires judges { Judges terms.now facts.now self.old }
        ensures judges { OnOk result (Judges terms.now facts.now self.new) }
        ensures at { OnOk result (self.new.at ≡ step.to) }
    {
        let folded = fold_at(folds, step.fact);
        let change = self.known.saved(terms, folded);
        self.trail.push(change)?;
        self.known.add(terms, folded);
        self.at = step.to;
        Ok(())
    }

    /// Goes back to the facts that are also on the way to the target, and from there to the target.
    fn reach(
        &mut self,
        alloc: Global,
        terms: &Terms,
        folds: &[TermId],
        facts: &FactLists,
        target: FactsId,
    ) -> Result<(), AllocError>
        requires folds { AreFolds terms.now folds.now }
        requires facts { AreLists (length folds.now) facts.now }
        requires target { target.0 < length facts.now }
        requires judges { Judges terms.now facts.now self.old }
        ensures judges { OnOk result (Judges terms.now facts.now self.new) }
        ensures reached { OnOk result (self.new.at ≡ target) }
    {
        let mut to = target;
        let mut steps = Items::new(alloc);
        'meet: while self.at.0 != to.0 {
            if to.0 < self.at.0 {
                self.back(terms, facts);
                continue 'meet;
            }
            let link = facts.link(to);
            steps.push(Step {
                to,
                fact: link.fact,
            })?;
            to = link.before;
        }
        'more: while let Some(step) = steps.pop() {
            self.forth(terms, folds, facts, step)?;
        }
        Ok(())
    }

    /// Whether one of the facts is false or the goal follows from them.
    fn closes(
        &mut self,
        alloc: Global,
        terms: &Terms,
        falsity: TermId,
        goal: TermId,
    ) -> Result<bool, AllocError>
        requires falsity { IsId terms.now falsity (term.Truth false) }
        requires goal { goal.0 < length terms.now }
        requires sized { Sized (length terms.now) self.old.known }
        ensures at { OnOk result (self.new.at ≡ self.old.at) }
        ensures trail { OnOk result (self.new.trail ≡ self.old.trail) }
        ensures sized { OnOk result (Sized (length terms.now) self.new.known) }
        ensures knows { OnOk result ((hyps : List Term) → Knows terms.now hyps self.old.known → Knows terms.now hyps self.new.known) }
        ensures closes { IfOk result (λ yes. (hyps : List Term) → Knows terms.now hyps self.old.known → yes ≡ (is_among hyps (term.Truth false) || is_plain hyps (tree_at terms.now goal))) }
    {
        if self.known.has(falsity) {
            return Ok(true);
        }
        let yes = follows(alloc, &mut self.known, terms, goal)?;
        Ok(yes)
    }
}

/// The answers to the questions, where the folds of all terms are there.
fn judged(
    alloc: Global,
    terms: &Terms,
    folds: &[TermId],
    facts: &FactLists,
    questions: &[Question],
    falsity: TermId,
) -> Result<Items<bool>, AllocError>
    requires folds { AreFolds terms.now folds.now }
    requires facts { AreLists (length folds.now) facts.now }
    requires questions { AreQuestions (length folds.now) (length facts.now) questions.now }
    requires falsity { IsId terms.now falsity (term.Truth false) }
    ensures { IfOk result (λ answers. answers ≡ map (answer terms.now facts.now) questions.now) }
{
    let mut judge = Judge {
        known: Known::new(alloc, terms.len())?,
        trail: Items::new(alloc),
        at: facts.none(),
    };
    let mut answers = Items::new(alloc);
    for question in questions {
        judge.reach(alloc, terms, folds, facts, question.facts)?;
        let goal = fold_at(folds, question.goal);
        let yes = judge.closes(alloc, terms, falsity, goal)?;
        answers.push(yes)?;
    }
    Ok(answers)
}

/// The answers to the questions.
pub fn answers(
    alloc: Global,
    terms: &mut Terms,
    facts: &FactLists,
    questions: &[Question],
) -> Result<Items<bool>, AllocError>
    requires facts { AreLists (length terms.old) facts.now }
    requires questions { AreQuestions (length terms.old) (length facts.now) questions.now }
    ensures grown { Grows terms.old terms.new }
    ensures answers { IfOk result (λ answers. answers ≡ map (answer terms.old facts.now) questions.now) }
{
    let falsity = terms.make(Node::Truth(false))?;
    let folds = fold_terms(alloc, terms)?;
    let answers = judged(alloc, terms, folds.as_slice(), facts, questions, falsity)?;
    Ok(answers)
}
