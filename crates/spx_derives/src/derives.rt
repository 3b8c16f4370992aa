// A body against the dependency relation that its subprogram declares.
ghost use Rattle.std.specs.Prelude.{◌≡◌, ◌<◌, Some, length, slice_get, IfOk};
ghost use Rattle.spx_core.specs.declared.subprogram.Sub.{Sub};
ghost use Rattle.spx_core.specs.Erased.{Visible};
ghost use Rattle.spx_core.specs.FlowRules.{MarkReaches};
ghost use Rattle.spx_core.specs.Scopes.{Scoped};
ghost use Rattle.spx_define.specs.UnsetReads.{AreUnsetReads};
ghost use Rattle.spx_flow.specs.Flows.{IsBackwardFlow, IsBodyFlow, IsFlow};
ghost use Rattle.spx_derives.specs.FlowFindings.{AreFindingsOf};

use crate::differences::add_differences;
use crate::finding::FlowFinding;
use crate::occurrences::{add_ineffective, ineffective_places};
use crate::tables::Tables;
use crate::unset::add_unset_reads;
use spx_core::laws::{marks, names_are_scoped};
use spx_core::{Program, Sub, SubId, VarId};
use spx_define::{unset_reads, unset_reads_in};
use spx_flow::{BodyFlow, Flow, Occurrence};
use spx_rows::Relation;
use spx_text::Place;
use sqlite_items::Items;
use std::alloc::{AllocError, Global};

/// The findings of a subprogram with these unset reads.
fn findings(
    alloc: Global,
    program: &Program,
    sub: &Sub,
    rho: &Relation,
    mu: &Items<Occurrence>,
    unset: &[(Place, VarId)],
) -> Result<Vec<FlowFinding>, AllocError>
    requires scoped { Scoped program.now sub.now }
    requires marks { MarkReaches program.now sub.now }
    requires flow { IsBackwardFlow sub.now rho.now mu.now }
    requires unset { AreUnsetReads program.now sub.now unset.now }
    ensures { IfOk result (λ found. AreFindingsOf program.now sub.now found.items) }
{
    let tables = Tables::of(alloc, sub, rho.size())?;
    let ineffective = ineffective_places(alloc, mu.as_slice(), &tables.exported)?;
    let mut found = Vec::new(alloc);
    add_differences(&mut found, rho, &tables, sub)?;
    add_ineffective(&mut found, ineffective.get())?;
    add_unset_reads(&mut found, unset)?;
    Ok(found)
}

/// The findings of the subprogram that the program has at `id`, with these unset reads.
fn findings_at(
    alloc: Global,
    program: &Program,
    id: SubId,
    rho: &Relation,
    mu: &Items<Occurrence>,
    unset: &[(Place, VarId)],
) -> Result<Vec<FlowFinding>, AllocError>
    requires visible { Visible program.now }
    requires id { id.0 < length program.now.subs }
    requires flow { (sub : Sub) → slice_get program.now.subs id.0 ≡ Some sub → IsBackwardFlow sub rho.now mu.now }
    requires unset { (sub : Sub) → slice_get program.now.subs id.0 ≡ Some sub → AreUnsetReads program.now sub unset.now }
    ensures { (sub : Sub) → slice_get program.now.subs id.0 ≡ Some sub → IfOk result (λ found. AreFindingsOf program.now sub found.items) }
{
    names_are_scoped();
    marks();
    let sub = &program.subs.as_slice()[id.0];
    let found = findings(alloc, program, sub, rho, mu, unset)?;
    Ok(found)
}

/// All that the body of a subprogram and its declared relation disagree on, of what leads on to the variables after the body.
pub fn compare_backward(
    alloc: Global,
    program: &Program,
    id: SubId,
    body: &BodyFlow,
) -> Result<Vec<FlowFinding>, AllocError>
    requires visible { Visible program.now }
    requires id { id.0 < length program.now.subs }
    requires flow { (sub : Sub) → slice_get program.now.subs id.0 ≡ Some sub → IsBodyFlow sub body.now }
    ensures { (sub : Sub) → slice_get program.now.subs id.0 ≡ Some sub → IfOk result (λ found. AreFindingsOf program.now sub found.items) }
{
    let sub = &program.subs.as_slice()[id.0];
    let unset = unset_reads_in(alloc, program, sub, body.items.as_slice())?;
    let back = &body.back;
    findings_at(alloc, program, id, &back.rho, &back.mu, unset.as_slice())
}

/// All that the body of a subprogram and its declared relation disagree on.
pub fn compare(
    alloc: Global,
    program: &Program,
    id: SubId,
    flow: &Flow,
) -> Result<Vec<FlowFinding>, AllocError>
    requires visible { Visible program.now }
    requires id { id.0 < length program.now.subs }
    requires flow { (sub : Sub) → slice_get program.now.subs id.0 ≡ Some sub → IsFlow sub flow.now }
    ensures { (sub : Sub) → slice_get program.now.subs id.0 ≡ Some sub → IfOk result (λ found. AreFindingsOf program.now sub found.items) }
{
    let unset = unset_reads(alloc, program, id)?;
    findings_at(alloc, program, id, &flow.rho, &flow.mu, unset.as_slice())
}
