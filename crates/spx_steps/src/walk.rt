// The walk along steps to the end of each path, which makes the conditions on its way. What paths have in common is walked once.
ghost use Rattle.std.specs.Prelude.{◌≡◌, ◌<◌, [], ◌∷◌, List, flat_map, length, map, IfOk, MatchOption, OnOk};
ghost use Rattle.spx_term.specs.declared.term.Term.{Term};
ghost use Rattle.spx_term.specs.Steps.{Assign, Assume, assume_all, check, claims_of, tidy};
ghost use Rattle.spx_arena.specs.Claims.{AreIds, IsWhole, claims_in, trees_at};
ghost use Rattle.spx_arena.specs.Sharing.{tree_at, Adds};
ghost use Rattle.spx_steps.specs.States.{state_in, AreValues};
ghost use Rattle.spx_steps.specs.Trees.{AreRoots, AreSteps, InOrder, cut_tree, cut_trees, root_trees, step_tree};
ghost use Rattle.spx_steps.specs.Forks.{Resumes, StopsAt, Waits};
ghost use Rattle.spx_steps.specs.Walks.{AddsFact, BeginsAnew, ClaimsAll, Ends, Goes, IsBack, Makes, MakesAll, Marks, Ready, Stands};

use crate::memo::Memo;
use crate::parts::parts_of;
use crate::values::Values;
use crate::{Roots, Step, StepId, Steps};
use indexmap::IndexSet;
use spx_arena::{FactLists, FactsId, Node, SharedClaim, SharedClaims, TermId, Terms};
use spx_term::{CondKind, Name};
use spx_text::Place;
use sqlite_items::Items;
use std::alloc::{AllocError, Global};

/// How deep the making of a value may go into the parts of a term, before the values of all parts are made one after the other.
const MOST_DEPTH: u32 = 200;

/// The facts of the present path, and the lists of the facts of all paths.
#[derive(Drop)]
pub struct Facts {
    pub present: IndexSet<TermId>,
    pub lists: FactLists,
    /// The list of the present facts.
    pub at: FactsId,
}

/// The values that names have, the facts that hold, and the claims so far.
#[derive(Drop)]
pub struct Walk {
    pub terms: Terms,
    pub values: Values,
    /// What the terms of the steps were made into.
    pub made: Memo,
    pub facts: Facts,
    pub claims: Items<SharedClaim>,
}

/// What is known where a path splits, to come back to.
#[derive(Drop)]
pub struct Mark {
    pub values: Values,
    pub at: FactsId,
    /// How many facts there are.
    pub count: usize,
}

/// Two steps, of which either goes on.
#[derive(Clone, Copy)]
pub struct Fork {
    pub first: StepId,
    pub second: StepId,
}

/// A step that is still to be walked from, and the place to come back to before.
#[derive(Drop)]
pub struct Waiting {
    pub mark: Mark,
    pub from: StepId,
}

impl Facts {
    /// Adds a fact, if it is not there.
    fn add(&mut self, fact: TermId) -> Result<(), AllocError>
        requires { Stands self.old }
        ensures { OnOk result (AddsFact self.old self.new fact) }
    {
        if self.present.insert(fact)? {
            self.at = self.lists.more(self.at, fact)?;
            return Ok(());
        }
        Ok(())
    }
}

/// The id of the value that a name has.
fn name_id(terms: &mut Terms, values: &Values, name: Name) -> Result<TermId, AllocError>
    requires { AreValues (length terms.old) values.now }
    ensures { IfOk result (λ id. Adds terms.old terms.new id (state_in terms.old values.now name)) }
{
    match values.get(name) {
        Some(id) => Ok(id),
        None => terms.make(Node::Variable(name)),
    }
}

impl Walk {
    /// The id of a term over names with their values, which is made from its parts. These may go so deep.
    #[cycle(value_of)]
    fn made_of(
        &mut self,
        alloc: Global,
        names: &Terms,
        id: TermId,
        depth: u32,
    ) -> Result<TermId, AllocError>
        requires ready { Ready names.now self.old }
        requires within { id.0 < length names.now }
        ensures { IfOk result (Makes names.now self.old self.new id) }
    {
        match names.node(id) {
            Node::Number(value) => {
                let made = self.terms.make(Node::Number(value))?;
                Ok(made)
            }
            Node::Truth(value) => {
                let made = self.terms.make(Node::Truth(value))?;
                Ok(made)
            }
            Node::Variable(name) => {
                let made = name_id(&mut self.terms, &self.values, name)?;
                Ok(made)
            }
            Node::Prefix(op, operand) => {
                let operand = self.value_of(alloc, names, operand, depth)?;
                let made = self.terms.make(Node::Prefix(op, operand))?;
                Ok(made)
            }
            Node::Infix(op, left, right) => {
                let left = self.value_of(alloc, names, left, depth)?;
                let right = self.value_of(alloc, names, right, depth)?;
                let made = self.terms.make(Node::Infix(op, left, right))?;
                Ok(made)
            }
            Node::Blank(id) => {
                let made = self.terms.make(Node::Blank(id))?;
                Ok(made)
            }
            Node::Unary(op, operand) => {
                let operand = self.value_of(alloc, names, operand, depth)?;
                let made = self.terms.make(Node::Unary(op, operand))?;
                Ok(made)
            }
            Node::Binary(op, left, right) => {
                let left = self.value_of(alloc, names, left, depth)?;
                let right = self.value_of(alloc, names, right, depth)?;
                let made = self.terms.make(Node::Binary(op, left, right))?;
                Ok(made)
            }
            Node::Ternary(op, first, second, third) => {
                let first = self.value_of(alloc, names, first, depth)?;
                let second = self.value_of(alloc, names, second, depth)?;
                let third = self.value_of(alloc, names, third, depth)?;
                let made = self.terms.make(Node::Ternary(op, first, second, third))?;
                Ok(made)
            }
        }
    }

    /// Makes the id of a term over names with their values, and keeps it.
    #[cycle(value_of)]
    fn kept_of(
        &mut self,
        alloc: Global,
        names: &Terms,
        id: TermId,
        depth: u32,
    ) -> Result<TermId, AllocError>
        requires ready { Ready names.now self.old }
        requires within { id.0 < length names.now }
        ensures { IfOk result (Makes names.now self.old self.new id) }
    {
        let made = self.made_of(alloc, names, id, depth)?;
        self.made.set(id, made);
        Ok(made)
    }

    /// The id of a term over names with their values, made after those of all its parts, from the first on.
    #[cycle(value_of)]
    fn fill(&mut self, alloc: Global, names: &Terms, id: TermId) -> Result<TermId, AllocError>
        requires ready { Ready names.now self.old }
        requires within { id.0 < length names.now }
        ensures { IfOk result (Makes names.now self.old self.new id) }
    {
        let parts = parts_of(alloc, names, id)?;
        'parts: for at in 0..id.0 {
            if !parts.as_slice()[at] {
                continue 'parts;
            }
            self.value_of(alloc, names, TermId(at), 1)?;
        }
        let made = self.kept_of(alloc, names, id, 0)?;
        Ok(made)
    }

    /// The id of a term over names with their values. Each is made once while names keep their values.
    #[cycle(value_of)]
    fn value_of(
        &mut self,
        alloc: Global,
        names: &Terms,
        id: TermId,
        depth: u32,
    ) -> Result<TermId, AllocError>
        requires ready { Ready names.now self.old }
        requires within { id.0 < length names.now }
        ensures { IfOk result (Makes names.now self.old self.new id) }
    {
        if let Some(known) = self.made.get(id) {
            return Ok(known);
        }
        if depth == 0 {
            let made = self.fill(alloc, names, id)?;
            return Ok(made);
        }
        let made = self.kept_of(alloc, names, id, depth - 1)?;
        Ok(made)
    }

    /// The ids of several.
    fn values_of(
        &mut self,
        alloc: Global,
        names: &Terms,
        ids: &[TermId],
    ) -> Result<Items<TermId>, AllocError>
        requires ready { Ready names.now self.old }
        requires within { AreIds (length names.now) ids.now }
        ensures { IfOk result (MakesAll names.now self.old self.new ids.now) }
    {
        let mut all = Items::new(alloc);
        for id in ids {
            all.push(self.value_of(alloc, names, *id, MOST_DEPTH)?)?;
        }
        Ok(all)
    }

    /// The place to come back to.
    fn mark(&self) -> Result<Mark, AllocError>
        ensures { IfOk result (Marks self.now) }
    {
        Ok(Mark {
            values: self.values.copy()?,
            at: self.facts.at,
            count: self.facts.present.len(),
        })
    }

    /// Values and facts are again what they were. Terms, lists of facts and claims stay.
    fn back_to(&mut self, mark: Mark)
        ensures { IsBack self.old self.new mark }
    {
        self.facts.present.truncate(mark.count);
        self.facts.at = mark.at;
        self.values = mark.values;
        self.made.forget();
    }

    /// A term is true.
    fn assumed(&mut self, alloc: Global, names: &Terms, fact: TermId) -> Result<(), AllocError>
        requires ready { Ready names.now self.old }
        requires within { fact.0 < length names.now }
        ensures { OnOk result (Goes names.now self.old self.new (Assume (tree_at names.now fact))) }
    {
        let id = self.value_of(alloc, names, fact, MOST_DEPTH)?;
        self.terms.distinct();
        self.facts.add(id)?;
        Ok(())
    }

    /// Terms are true.
    fn all_assumed(
        &mut self,
        alloc: Global,
        names: &Terms,
        facts: &[TermId],
    ) -> Result<(), AllocError>
        requires ready { Ready names.now self.old }
        requires within { AreIds (length names.now) facts.now }
        ensures { OnOk result (Goes names.now self.old self.new (assume_all (trees_at names.now facts.now))) }
    {
        for fact in facts {
            self.assumed(alloc, names, *fact)?;
        }
        Ok(())
    }

    /// A name stands for a new value. What terms were made into is forgotten.
    fn assigned(
        &mut self,
        alloc: Global,
        names: &Terms,
        name: Name,
        value: TermId,
    ) -> Result<(), AllocError>
        requires ready { Ready names.now self.old }
        requires within { value.0 < length names.now }
        ensures { OnOk result (Goes names.now self.old self.new (Assign name (tree_at names.now value))) }
    {
        let id = self.value_of(alloc, names, value, MOST_DEPTH)?;
        self.values.set(name, id)?;
        self.made.forget();
        Ok(())
    }

    /// Goals are to be shown, and are known from there on.
    fn checked(
        &mut self,
        alloc: Global,
        names: &Terms,
        kind: CondKind,
        place: Place,
        goals: &[TermId],
    ) -> Result<(), AllocError>
        requires ready { Ready names.now self.old }
        requires within { AreIds (length names.now) goals.now }
        ensures { OnOk result (Goes names.now self.old self.new (check kind place (trees_at names.now goals.now))) }
    {
        let ids = self.values_of(alloc, names, goals)?;
        let facts = self.facts.at;
        self.claims.push(SharedClaim {
            kind,
            place,
            facts,
            goals: ids,
        })?;
        self.all_assumed(alloc, names, goals)?;
        Ok(())
    }

    /// From a step on to the end of a path, or to where it splits.
    fn walk_straight(
        &mut self,
        alloc: Global,
        steps: &Steps,
        from: StepId,
    ) -> Result<Option<Fork>, AllocError>
        requires ready { Ready steps.now.terms self.old }
        requires order { InOrder steps.now }
        requires within { from.0 < length steps.now.nodes }
        ensures { IfOk result (StopsAt steps.now self.old self.new from) }
    {
        let mut at = from;
        'steps: loop {
            match steps.step(at) {
                Step::Cut => return Ok(None),
                Step::Assume(fact, next) => {
                    self.assumed(alloc, &steps.terms, *fact)?;
                    at = *next;
                    continue 'steps;
                }
                Step::Assign(name, value, next) => {
                    self.assigned(alloc, &steps.terms, *name, *value)?;
                    at = *next;
                    continue 'steps;
                }
                Step::Fresh(_, next) => {
                    at = *next;
                    continue 'steps;
                }
                Step::Check(kind, place, goals, next) => {
                    self.checked(alloc, &steps.terms, *kind, *place, goals.as_slice())?;
                    at = *next;
                    continue 'steps;
                }
                Step::Split(first, second) => {
                    return Ok(Some(Fork {
                        first: *first,
                        second: *second,
                    }));
                }
            }
        }
    }

    /// The step waits until the walk comes back to here.
    fn wait(&self, waiting: &mut Items<Waiting>, from: StepId) -> Result<(), AllocError>
        ensures { OnOk result (Waits self.now waiting.old waiting.new from) }
    {
        let mark = self.mark()?;
        waiting.push(Waiting { mark, from })?;
        Ok(())
    }

    /// The step that waits last, and the walk is back there.
    fn resumed(&mut self, waiting: &mut Items<Waiting>) -> Option<StepId>
        ensures { MatchOption result ((waiting.old ≡ []) × (self.new ≡ self.old)) (Resumes self.old self.new waiting.old waiting.new) }
    {
        match waiting.pop() {
            None => None,
            Some(last) => {
                let Waiting { mark, from } = last;
                self.back_to(mark);
                Some(from)
            }
        }
    }

    /// From a step on to the end of each path. Where it splits the second step waits.
    fn walk(&mut self, alloc: Global, steps: &Steps, from: StepId) -> Result<(), AllocError>
        requires ready { Ready steps.now.terms self.old }
        requires order { InOrder steps.now }
        requires within { from.0 < length steps.now.nodes }
        ensures { OnOk result (Ends steps.now.terms self.old self.new (step_tree steps.now from)) }
    {
        let mut waiting = Items::new(alloc);
        let mut at = from;
        'paths: loop {
            match self.walk_straight(alloc, steps, at)? {
                Some(fork) => {
                    self.wait(&mut waiting, fork.second)?;
                    at = fork.first;
                    continue 'paths;
                }
                None => match self.resumed(&mut waiting) {
                    None => return Ok(()),
                    Some(next) => {
                        at = next;
                        continue 'paths;
                    }
                },
            }
        }
    }

    /// No name has a value, and nothing is known. Terms, lists of facts and claims stay.
    fn begin_anew(&mut self, alloc: Global)
        ensures { (names : List Term) → Ready names self.old → BeginsAnew names self.old self.new }
    {
        self.values = Values::new(alloc);
        self.made.forget();
        self.facts.present.truncate(0);
        self.facts.at = self.facts.lists.none();
    }

    /// From the start of a body or a cut on, where no name has a value and these facts are known.
    fn walk_cut(
        &mut self,
        alloc: Global,
        steps: &Steps,
        known: &[TermId],
        cut: StepId,
    ) -> Result<(), AllocError>
        requires ready { Ready steps.now.terms self.old }
        requires order { InOrder steps.now }
        requires known { AreIds (length steps.now.terms) known.now }
        requires within { cut.0 < length steps.now.nodes }
        ensures { OnOk result (ClaimsAll steps.now.terms self.old self.new (cut_tree steps.now (trees_at steps.now.terms known.now) cut ∷ [])) }
    {
        self.begin_anew(alloc);
        self.all_assumed(alloc, &steps.terms, known)?;
        self.walk(alloc, steps, cut)?;
        Ok(())
    }

    /// From several cuts on.
    fn walk_cuts(
        &mut self,
        alloc: Global,
        steps: &Steps,
        known: &[TermId],
        cuts: &[StepId],
    ) -> Result<(), AllocError>
        requires ready { Ready steps.now.terms self.old }
        requires order { InOrder steps.now }
        requires known { AreIds (length steps.now.terms) known.now }
        requires within { AreSteps (length steps.now.nodes) cuts.now }
        ensures { OnOk result (ClaimsAll steps.now.terms self.old self.new (cut_trees steps.now (trees_at steps.now.terms known.now) cuts.now)) }
    {
        for cut in cuts {
            self.walk_cut(alloc, steps, known, *cut)?;
        }
        Ok(())
    }

    /// From the start of a body on, and then from its cuts on.
    fn walk_roots(&mut self, alloc: Global, steps: &Steps, roots: &Roots) -> Result<(), AllocError>
        requires ready { Ready steps.now.terms self.old }
        requires order { InOrder steps.now }
        requires roots { AreRoots steps.now roots.now }
        ensures { OnOk result (ClaimsAll steps.now.terms self.old self.new (root_trees steps.now roots.now)) }
    {
        self.walk_cut(alloc, steps, &[], roots.start)?;
        self.walk_cuts(alloc, steps, roots.known.as_slice(), roots.cuts.as_slice())?;
        Ok(())
    }
}

/// The conditions from all roots on, one after the other.
pub fn claims_from(alloc: Global, steps: &Steps, roots: &Roots) -> Result<SharedClaims, AllocError>
    requires order { InOrder steps.now }
    requires roots { AreRoots steps.now roots.now }
    ensures whole { IfOk result IsWhole }
    ensures claims { IfOk result (λ all. claims_in all ≡ map tidy (flat_map claims_of (root_trees steps.now roots.now))) }
{
    let made = Memo::new(alloc, steps.terms.len())?;
    let lists = FactLists::new(alloc);
    let mut walk = Walk {
        terms: Terms::new(alloc),
        values: Values::new(alloc),
        made,
        facts: Facts {
            present: IndexSet::new(alloc),
            at: lists.none(),
            lists,
        },
        claims: Items::new(alloc),
    };
    walk.walk_roots(alloc, steps, roots)?;
    let Walk {
        terms,
        values: _,
        made: _,
        facts,
        claims: list,
    } = walk;
    let Facts {
        present: _,
        lists: facts,
        at: _,
    } = facts;
    Ok(SharedClaims { terms, facts, list })
}
