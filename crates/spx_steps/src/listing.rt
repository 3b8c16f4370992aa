// The paths from steps on, one by one.
ghost use Rattle.std.specs.Prelude.{◌≡◌, ◌<◌, ◌++◌, flat_map, length, map, IfOk, OnOk};
ghost use Rattle.spx_term.specs.Paths.{branches};
ghost use Rattle.spx_term.specs.Steps as tree;
ghost use Rattle.spx_arena.specs.Claims.{AreIds, trees_at};
ghost use Rattle.spx_steps.specs.Listing.{Walked, after, steps_in};
ghost use Rattle.spx_steps.specs.Trees.{AreRoots, AreSteps, InOrder, cut_tree, cut_trees, root_trees, step_tree};

use crate::{Roots, Step, StepId, Steps};
use spx_arena::{TermId, Terms};
use spx_term::{CondKind, PathStep, Term};
use spx_text::Place;
use sqlite_items::Items;
use std::alloc::{AllocError, Global};

/// A path from one cut to the next.
#[derive(Drop)]
pub struct Path {
    pub steps: Items<PathStep>,
}

/// The trees of several terms.
fn trees(alloc: Global, terms: &Terms, ids: &[TermId]) -> Result<Items<Term>, AllocError>
    requires { AreIds (length terms.now) ids.now }
    ensures { IfOk result (λ trees. trees ≡ trees_at terms.now ids.now) }
{
    let mut trees = Items::new(alloc);
    for id in ids {
        trees.push(terms.tree_of(alloc, *id)?)?;
    }
    Ok(trees)
}

/// Equal steps.
fn copy_steps(alloc: Global, steps: &[PathStep]) -> Result<Items<PathStep>, AllocError>
    ensures { IfOk result (λ copy. copy ≡ steps.now) }
{
    let mut copy = Items::new(alloc);
    for step in steps {
        copy.push(step.copy(alloc)?)?;
    }
    Ok(copy)
}

/// Facts, one after the other.
fn assume_all(
    alloc: Global,
    terms: &Terms,
    path: &mut Items<PathStep>,
    facts: &[TermId],
) -> Result<(), AllocError>
    requires { AreIds (length terms.now) facts.now }
    ensures { OnOk result (Walked path.old path.new (tree.assume_all (trees_at terms.now facts.now))) }
{
    for fact in facts {
        path.push(PathStep::Assume(terms.tree_of(alloc, *fact)?))?;
    }
    Ok(())
}

/// Goals are to be shown, and are known from there on.
fn check(
    alloc: Global,
    terms: &Terms,
    path: &mut Items<PathStep>,
    kind: CondKind,
    place: Place,
    goals: &[TermId],
) -> Result<(), AllocError>
    requires { AreIds (length terms.now) goals.now }
    ensures { OnOk result (Walked path.old path.new (tree.check kind place (trees_at terms.now goals.now))) }
{
    let shown = trees(alloc, terms, goals)?;
    path.push(PathStep::Prove(kind, place, shown))?;
    assume_all(alloc, terms, path, goals)?;
    Ok(())
}

/// The paths from a step on, each after these steps.
#[cycle(list)]
fn list(
    alloc: Global,
    steps: &Steps,
    from: StepId,
    before: Items<PathStep>,
    found: &mut Items<Path>,
) -> Result<(), AllocError>
    requires order { InOrder steps.now }
    requires within { from.0 < length steps.now.nodes }
    ensures { OnOk result (steps_in found.new ≡ steps_in found.old ++ after before (step_tree steps.now from)) }
{
    let mut path = before;
    let mut at = from;
    'steps: loop {
        match steps.step(at) {
            Step::Cut => {
                found.push(Path { steps: path })?;
                return Ok(());
            }
            Step::Assume(fact, next) => {
                path.push(PathStep::Assume(steps.terms.tree_of(alloc, *fact)?))?;
                at = *next;
                continue 'steps;
            }
            Step::Assign(name, value, next) => {
                path.push(PathStep::Assign(*name, steps.terms.tree_of(alloc, *value)?))?;
                at = *next;
                continue 'steps;
            }
            Step::Fresh(name, next) => {
                path.push(PathStep::Fresh(*name))?;
                at = *next;
                continue 'steps;
            }
            Step::Check(kind, place, goals, next) => {
                let goals = goals.as_slice();
                check(alloc, &steps.terms, &mut path, *kind, *place, goals)?;
                at = *next;
                continue 'steps;
            }
            Step::Split(first, second) => {
                let taken = copy_steps(alloc, path.as_slice())?;
                list(alloc, steps, *first, taken, found)?;
                at = *second;
                continue 'steps;
            }
        }
    }
}

/// The paths from a cut on, each after what is known there.
fn list_cut(
    alloc: Global,
    steps: &Steps,
    known: &[TermId],
    cut: StepId,
    found: &mut Items<Path>,
) -> Result<(), AllocError>
    requires whole { InOrder steps.now }
    requires known { AreIds (length steps.now.terms) known.now }
    requires within { cut.0 < length steps.now.nodes }
    ensures { OnOk result (steps_in found.new ≡ steps_in found.old ++ branches (cut_tree steps.now (trees_at steps.now.terms known.now) cut)) }
{
    let mut before = Items::new(alloc);
    assume_all(alloc, &steps.terms, &mut before, known)?;
    list(alloc, steps, cut, before, found)?;
    Ok(())
}

/// The paths from several cuts on.
fn list_cuts(
    alloc: Global,
    steps: &Steps,
    known: &[TermId],
    cuts: &[StepId],
    found: &mut Items<Path>,
) -> Result<(), AllocError>
    requires whole { InOrder steps.now }
    requires known { AreIds (length steps.now.terms) known.now }
    requires within { AreSteps (length steps.now.nodes) cuts.now }
    ensures { OnOk result (steps_in found.new ≡ steps_in found.old ++ flat_map branches (cut_trees steps.now (trees_at steps.now.terms known.now) cuts.now)) }
{
    for cut in cuts {
        list_cut(alloc, steps, known, *cut, found)?;
    }
    Ok(())
}

/// The paths from all roots on.
pub fn paths_from(alloc: Global, steps: &Steps, roots: &Roots) -> Result<Items<Path>, AllocError>
    requires whole { InOrder steps.now }
    requires roots { AreRoots steps.now roots.now }
    ensures { IfOk result (λ all. map (λ path. path.steps) all ≡ flat_map branches (root_trees steps.now roots.now)) }
{
    let mut found = Items::new(alloc);
    list(alloc, steps, roots.start, Items::new(alloc), &mut found)?;
    list_cuts(
        alloc,
        steps,
        roots.known.as_slice(),
        roots.cuts.as_slice(),
        &mut found,
    )?;
    Ok(found)
}
