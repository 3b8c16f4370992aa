// The flow of a subprogram.
ghost use Rattle.std.specs.Prelude.{◌≡◌, ◌==◌, ◌<◌, ◌≤◌, Some, false, length, true, slice_get, IfErr, IfOk};
ghost use Rattle.std.specs.List.{IsDistinct};
ghost use Rattle.spx_core.specs.declared.entity.VarId.{VarId};
ghost use Rattle.spx_core.specs.declared.subprogram.Sub.{Sub};
ghost use Rattle.spx_core.specs.Erased.{Visible};
ghost use Rattle.spx_core.specs.Effects.{effects, sets};
ghost use Rattle.spx_core.specs.Mirror.VarSets.{holds, positions_of};
ghost use Rattle.spx_lower.specs.Meaning.{effect_in};
ghost use Rattle.spx_core.specs.FlowRules.{is_wide, most_variables};
ghost use Rattle.spx_passes.specs.Positions.{exits_in};
ghost use Rattle.spx_flow.specs.Flows.{BodyCovered, IsBackwardFlow, IsBodyFlow, IsFaultOf, IsFlow};

use crate::fault::{FlowFault, MOST_VARIABLES};
use spx_core::laws::names_are_scoped;
use spx_core::{Program, Sub, SubId, VarId, VarSet};
use spx_lower::{Item, lower};
use spx_passes::{BackwardFlow, Frame, Occurrence, all_targets, backward, forward, have_exits};
use spx_rows::Relation;
use sqlite_items::Items;
use std::alloc::{AllocError, Global};

/// The flow of a body. Variables stand by their position in the subprogram's list.
#[derive(Drop)]
pub struct Flow {
    /// Each occurrence with the variables whose values before the body may come to what it reads.
    pub lambda: Items<Occurrence>,
    /// Each occurrence with the variables to whose values after the body what it reads may come.
    pub mu: Items<Occurrence>,
    /// The pairs of a variable before the body and one after it to which its value may come.
    pub rho: Relation,
    /// The variables that the body sets.
    pub defines: VarSet,
}

/// A body as items, and what leads on to the variables after it.
#[derive(Drop)]
pub struct BodyFlow {
    pub items: Items<Item>,
    pub back: BackwardFlow,
}

/// The variables that the items set.
fn defined(alloc: Global, items: &[Item]) -> Result<VarSet, AllocError>
    ensures { IfOk result (λ set. (v : VarId) → holds set v ≡ sets v (effect_in items.now)) }
{
    let targets = all_targets(alloc, items)?;
    let mut set = VarSet::new(alloc)?;
    for number in targets.as_slice() {
        set.insert(VarId(*number))?;
    }
    Ok(set)
}

/// The points of a body whose variables are the subprogram's.
fn frame_of(alloc: Global, sub: &Sub, items: &[Item]) -> Result<Frame, AllocError>
    requires { IsDistinct (λ (v : VarId) (w : VarId). w.0 == v.0) sub.now.vars }
    ensures { IfOk result (λ frame. frame ≡ record { vars = positions_of sub.now.vars; has_exits = exits_in true (effect_in items.now) }) }
{
    let vars = VarSet::of(alloc, sub.vars.as_slice())?;
    let has_exits = have_exits(true, items);
    Ok(Frame { vars, has_exits })
}

/// What leads on to the variables after a body that is these items.
fn backward_in(alloc: Global, sub: &Sub, items: &[Item]) -> Result<BackwardFlow, AllocError>
    requires once { IsDistinct (λ (v : VarId) (w : VarId). w.0 == v.0) sub.now.vars }
    requires covers { BodyCovered sub.now }
    requires size { length sub.now.vars ≤ most_variables }
    requires items { effect_in items.now ≡ effects sub.now.statements }
    ensures { IfOk result (λ back. IsBackwardFlow sub.now back.rho back.mu) }
{
    let frame = frame_of(alloc, sub, items)?;
    backward(alloc, &frame, items)
}

/// A body whose variables are the subprogram's, as items, with what leads on to the variables after it.
fn body_flow(alloc: Global, sub: &Sub) -> Result<BodyFlow, AllocError>
    requires once { IsDistinct (λ (v : VarId) (w : VarId). w.0 == v.0) sub.now.vars }
    requires covers { BodyCovered sub.now }
    requires size { length sub.now.vars ≤ most_variables }
    ensures { IfOk result (IsBodyFlow sub.now) }
{
    let items = lower(alloc, sub.statements.as_slice())?;
    let back = backward_in(alloc, sub, items.as_slice())?;
    Ok(BodyFlow { items, back })
}

/// The flow of a body that is these items, of which the backward part is there.
fn flow_in(alloc: Global, sub: &Sub, items: &[Item], back: BackwardFlow) -> Result<Flow, AllocError>
    requires once { IsDistinct (λ (v : VarId) (w : VarId). w.0 == v.0) sub.now.vars }
    requires covers { BodyCovered sub.now }
    requires size { length sub.now.vars ≤ most_variables }
    requires items { effect_in items.now ≡ effects sub.now.statements }
    requires back { IsBackwardFlow sub.now back.rho back.mu }
    ensures { IfOk result (IsFlow sub.now) }
{
    let frame = frame_of(alloc, sub, items)?;
    let lambda = forward(alloc, &frame, items)?;
    let defines = defined(alloc, items)?;
    Ok(Flow {
        lambda,
        mu: back.mu,
        rho: back.rho,
        defines,
    })
}

/// The body of a subprogram as items, and what leads on to the variables after it.
pub fn backward_flow_of(alloc: Global, program: &Program, id: SubId) -> Result<BodyFlow, FlowFault>
    requires visible { Visible program.now }
    requires id { id.0 < length program.now.subs }
    ensures flow { (sub : Sub) → slice_get program.now.subs id.0 ≡ Some sub → IfOk result (IsBodyFlow sub) }
    ensures narrow { (sub : Sub) → slice_get program.now.subs id.0 ≡ Some sub → IfOk result (λ body. is_wide sub ≡ false) }
    ensures refused { (sub : Sub) → slice_get program.now.subs id.0 ≡ Some sub → IfErr result (IsFaultOf sub) }
{
    names_are_scoped();
    let sub = &program.subs.as_slice()[id.0];
    let count = sub.vars.len();
    if count > MOST_VARIABLES {
        return Err(FlowFault::TooManyVariables(count));
    }
    let body = body_flow(alloc, sub)?;
    Ok(body)
}

/// The flow of the body of a subprogram.
pub fn flow_of(alloc: Global, program: &Program, id: SubId) -> Result<Flow, FlowFault>
    requires visible { Visible program.now }
    requires id { id.0 < length program.now.subs }
    ensures flow { (sub : Sub) → slice_get program.now.subs id.0 ≡ Some sub → IfOk result (IsFlow sub) }
    ensures narrow { (sub : Sub) → slice_get program.now.subs id.0 ≡ Some sub → IfOk result (λ flow. is_wide sub ≡ false) }
    ensures refused { (sub : Sub) → slice_get program.now.subs id.0 ≡ Some sub → IfErr result (IsFaultOf sub) }
{
    names_are_scoped();
    let body = match backward_flow_of(alloc, program, id) {
        Ok(body) => body,
        Err(fault) => return Err(fault),
    };
    let BodyFlow { items, back } = body;
    let sub = &program.subs.as_slice()[id.0];
    let flow = flow_in(alloc, sub, items.as_slice(), back)?;
    Ok(flow)
}
