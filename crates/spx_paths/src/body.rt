// The steps of a body, and the paths of it.
ghost use Rattle.std.specs.Prelude.{◌≡◌, ◌<◌, false, length, map, reverse, slice_get, IfErr, IfOk, OnOk, Some};
ghost use Rattle.spx_core.specs.declared.subprogram.Sub.{Sub};
ghost use Rattle.spx_paths.specs.Conditions.{paths};
ghost use Rattle.spx_paths.specs.Drafts.{IsBegun, IsBodyOf, Makes, Ready};
ghost use Rattle.spx_paths.specs.Limits.{IsPathFaultOf, has_many_paths};
ghost use Rattle.spx_paths.specs.Walks.{ending};

use crate::build::{Body, Next};
use crate::draft::Draft;
use crate::within::Within;
use crate::{MOST_PATHS, PathFault};
use spx_core::{Program, Sub, SubId};
use spx_formula::Interface;
use spx_steps::{Path, Roots, StepId, Steps, has_many, paths_from};
use spx_term::CondKind;
use sqlite_items::Items;
use std::alloc::{AllocError, Global};

/// The steps of a body, and those with which its paths begin.
#[derive(Drop)]
pub struct BodySteps {
    pub steps: Steps,
    pub roots: Roots,
}

/// These, the last one first.
fn in_reverse(alloc: Global, ids: &[StepId]) -> Result<Items<StepId>, AllocError>
    ensures { IfOk result (λ all. all ≡ reverse ids.now) }
{
    let mut all = Items::new(alloc);
    for id in ids.iter().rev() {
        all.push(*id)?;
    }
    Ok(all)
}

impl Draft {
    /// No step, and no check.
    fn new(alloc: Global) -> Draft
        ensures { Ready result }
    {
        Draft {
            steps: Steps::new(alloc),
            checks: Items::new(alloc),
        }
    }

    /// The end of a body, where its postcondition is to be shown.
    fn ending(&mut self, alloc: Global, body: &Body) -> Result<StepId, AllocError>
        requires ready { Ready self.old }
        requires begun { IsBegun self.old body.now }
        ensures { IfOk result (λ id. Makes self.old self.new id (ending body.now.program.now body.now.sub.now 0)) }
    {
        match &body.sub.post {
            None => Ok(body.cut),
            Some(post) => {
                let condition = post.condition.get();
                let kind = CondKind::Post;
                let id = self.asserted(alloc, body, kind, post.place, condition, body.cut)?;
                Ok(id)
            }
        }
    }

    /// The steps with which the paths of a body begin. They are made from its end to its start.
    fn roots(&mut self, alloc: Global, body: &Body) -> Result<Roots, AllocError>
        requires ready { Ready self.old }
        requires begun { IsBegun self.old body.now }
        ensures { IfOk result (λ roots. IsBodyOf body.now.program.now body.now.sub.now (record { steps = self.new.steps; roots = roots })) }
    {
        let end = self.ending(alloc, body)?;
        let next = Next {
            rest: end,
            leave: end,
            within: &Within::outermost(),
        };
        let mut last_first = Items::new(alloc);
        let stmts = body.sub.statements.as_slice();
        let first = self.stmts(alloc, body, &mut last_first, stmts, &next)?;
        let start = self.start(alloc, body, first)?;
        let known = self.known_at_cuts(alloc, body)?;
        let cuts = in_reverse(alloc, last_first.as_slice())?;
        Ok(Roots { start, known, cuts })
    }
}

/// The steps of a body.
fn all_steps(alloc: Global, program: &Program, sub: &Sub) -> Result<BodySteps, AllocError>
    ensures { IfOk result (IsBodyOf program.now sub.now) }
{
    let interface = Interface::of(alloc, sub)?;
    let mut draft = Draft::new(alloc);
    let cut = draft.steps.cut()?;
    let body = Body {
        program,
        sub,
        interface: &interface,
        cut,
    };
    let roots = draft.roots(alloc, &body)?;
    let Draft { steps, checks: _ } = draft;
    Ok(BodySteps { steps, roots })
}

/// The steps of a body, unless it has more than `MOST_PATHS` paths.
pub fn body_steps(alloc: Global, program: &Program, sub: &Sub) -> Result<BodySteps, PathFault>
    ensures exact { IfOk result (IsBodyOf program.now sub.now) }
    ensures few { OnOk result (has_many_paths sub.now ≡ false) }
    ensures refused { IfErr result (IsPathFaultOf sub.now) }
{
    let all = all_steps(alloc, program, sub)?;
    if has_many(alloc, &all.steps, &all.roots, MOST_PATHS)? {
        return Err(PathFault::TooManyPaths(MOST_PATHS + 1));
    }
    Ok(all)
}

/// The paths of a body, unless there are too many.
fn body_paths(alloc: Global, program: &Program, sub: &Sub) -> Result<Items<Path>, PathFault>
    ensures exact { IfOk result (λ all. map (λ path. path.steps) all ≡ paths program.now sub.now) }
    ensures few { OnOk result (has_many_paths sub.now ≡ false) }
    ensures refused { IfErr result (IsPathFaultOf sub.now) }
{
    let all = body_steps(alloc, program, sub)?;
    Ok(paths_from(alloc, &all.steps, &all.roots)?)
}

/// The paths from cut to cut of a subprogram, in the order of the text.
pub fn paths(alloc: Global, program: &Program, id: SubId) -> Result<Items<Path>, PathFault>
    requires { id.0 < length program.now.subs }
    ensures exact { (sub : Sub) → slice_get program.now.subs id.0 ≡ Some sub → IfOk result (λ all. map (λ path. path.steps) all ≡ paths program.now sub) }
    ensures few { (sub : Sub) → slice_get program.now.subs id.0 ≡ Some sub → OnOk result (has_many_paths sub ≡ false) }
    ensures refused { (sub : Sub) → slice_get program.now.subs id.0 ≡ Some sub → IfErr result (IsPathFaultOf sub) }
{
    body_paths(alloc, program, &program.subs.as_slice()[id.0])
}
