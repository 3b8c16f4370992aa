// Steps by ids.
ghost use Rattle.std.specs.Prelude.{◌≡◌, ◌<◌, length, MatchResult};
ghost use Rattle.spx_arena.specs.Claims.{AreIds, trees_at};
ghost use Rattle.spx_arena.specs.Sharing.{tree_at};
ghost use Rattle.spx_term.specs.Steps.{Assume, Assign, Cut, Fresh, Split, assume_all, check};
ghost use Rattle.spx_steps.specs.Trees.{AddsStep, Below, InOrder, MoreSteps, step_in, step_tree};

use spx_arena::{TermId, Terms};
use spx_term::{CondKind, Name};
use spx_text::Place;
use sqlite_items::Items;
use std::alloc::{AllocError, Global};

/// The place of a step among the steps, counted from 0.
#[derive(Clone, Copy, PartialEq, Eq)]
pub struct StepId(pub usize);

/// A step, and the one that follows it.
#[derive(Drop)]
pub enum Step {
    /// A path ends.
    Cut,
    /// The term is true.
    Assume(TermId, StepId),
    /// The name stands for a new value.
    Assign(Name, TermId, StepId),
    /// The name stands for any value of its sort.
    Fresh(Name, StepId),
    /// The goals are to be shown, and are known from there on.
    Check(CondKind, Place, Items<TermId>, StepId),
    /// Either goes on.
    Split(StepId, StepId),
}

/// Terms over names, and the steps that have them. Each step comes after those that follow it.
#[derive(Drop)]
pub struct Steps {
    pub terms: Terms,
    pub nodes: Items<Step>,
}

/// The steps with which paths begin: the start of a body, and each cut in it, in the order of the text.
#[derive(Drop)]
pub struct Roots {
    pub start: StepId,
    /// What is known after each cut.
    pub known: Items<TermId>,
    pub cuts: Items<StepId>,
}

impl Steps {
    /// No term and no step.
    pub fn new(alloc: Global) -> Steps
        ensures { InOrder result }
    {
        Steps {
            terms: Terms::new(alloc),
            nodes: Items::new(alloc),
        }
    }

    /// One step more.
    pub fn push(&mut self, step: Step) -> Result<StepId, AllocError>
        requires whole { InOrder self.old }
        requires below { Below (length self.old.terms) (length self.old.nodes) step }
        ensures { MatchResult result (λ id. AddsStep self.old self.new id (step_in self.old step)) (λ _. self.new ≡ self.old) }
    {
        let at = self.nodes.len();
        self.nodes.push(step)?;
        Ok(StepId(at))
    }

    /// The step of an id.
    pub fn step(&self, id: StepId) -> &Step
        requires whole { InOrder self.now }
        requires within { id.0 < length self.now.nodes }
        ensures tree { step_tree self.now id ≡ step_in self.now result.now }
        ensures below { Below (length self.now.terms) id.0 result.now }
    {
        &self.nodes.as_slice()[id.0]
    }

    /// A path ends.
    pub fn cut(&mut self) -> Result<StepId, AllocError>
        requires { InOrder self.old }
        ensures { MatchResult result (λ id. AddsStep self.old self.new id Cut) (λ _. self.new ≡ self.old) }
    {
        self.push(Step::Cut)
    }

    /// A term is true.
    pub fn assume(&mut self, fact: TermId, next: StepId) -> Result<StepId, AllocError>
        requires whole { InOrder self.old }
        requires within { (fact.0 < length self.old.terms) × (next.0 < length self.old.nodes) }
        ensures { MatchResult result (λ id. AddsStep self.old self.new id (Assume (tree_at self.old.terms fact) (step_tree self.old next))) (λ _. self.new ≡ self.old) }
    {
        self.push(Step::Assume(fact, next))
    }

    /// A name stands for a new value.
    pub fn assign(&mut self, name: Name, value: TermId, next: StepId) -> Result<StepId, AllocError>
        requires whole { InOrder self.old }
        requires within { (value.0 < length self.old.terms) × (next.0 < length self.old.nodes) }
        ensures { MatchResult result (λ id. AddsStep self.old self.new id (Assign name (tree_at self.old.terms value) (step_tree self.old next))) (λ _. self.new ≡ self.old) }
    {
        self.push(Step::Assign(name, value, next))
    }

    /// The goals are to be shown, and are known from there on.
    pub fn check(
        &mut self,
        kind: CondKind,
        place: Place,
        goals: Items<TermId>,
        next: StepId,
    ) -> Result<StepId, AllocError>
        requires whole { InOrder self.old }
        requires within { next.0 < length self.old.nodes }
        requires goals { AreIds (length self.old.terms) goals }
        ensures { MatchResult result (λ id. AddsStep self.old self.new id (check kind place (trees_at self.old.terms goals) (step_tree self.old next))) (λ _. self.new ≡ self.old) }
    {
        self.push(Step::Check(kind, place, goals, next))
    }

    /// Either goes on.
    pub fn split(&mut self, first: StepId, second: StepId) -> Result<StepId, AllocError>
        requires whole { InOrder self.old }
        requires within { (first.0 < length self.old.nodes) × (second.0 < length self.old.nodes) }
        ensures { MatchResult result (λ id. AddsStep self.old self.new id (Split (step_tree self.old first) (step_tree self.old second))) (λ _. self.new ≡ self.old) }
    {
        self.push(Step::Split(first, second))
    }

    /// Facts, one after the other. Where memory runs out, the steps of some of them have come in.
    pub fn assume_all(&mut self, facts: &[TermId], next: StepId) -> Result<StepId, AllocError>
        requires whole { InOrder self.old }
        requires within { next.0 < length self.old.nodes }
        requires facts { AreIds (length self.old.terms) facts.now }
        ensures { MatchResult result (λ id. AddsStep self.old self.new id (assume_all (trees_at self.old.terms facts.now) (step_tree self.old next))) (λ _. InOrder self.new × MoreSteps self.old self.new × (self.new.terms ≡ self.old.terms)) }
    {
        let mut at = next;
        let mut left = facts.len();
        'facts: while left > 0 {
            left -= 1;
            at = self.assume(facts[left], at)?;
        }
        Ok(at)
    }
}
