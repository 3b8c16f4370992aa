// What the verification conditions of a program come to.
ghost use Rattle.std.specs.Prelude.{◌≡◌, ◌+◌, ◌-◌, ◌<◌, ◌≤◌, ◌++◌, ◌∷◌, [], ◌↔◌, Some, None, length, map, slice_get, All, IfErr, IfOk, OnOk};
ghost use Rattle.std.specs.List.{cons_option};
ghost use Rattle.spx_arena.specs.Claims.{claims_in, IsWhole};
ghost use Rattle.spx_core.specs.Bodies.{bodies_of};
ghost use Rattle.spx_core.specs.declared.subprogram.Sub.{Sub};
ghost use Rattle.spx_paths.specs.Conditions.{ArePlain, body_claims, condition_name, conditions_of, numbered};
ghost use Rattle.spx_findings.specs.Findings as spec;
ghost use Rattle.spx_findings.specs.LeftClaims.{left_or};
ghost use Rattle.spx_report.specs.Limits.{IsFaultOf};
ghost use Rattle.spx_term.specs.Steps.{tidy};
ghost use Rattle.spx_simplify.specs.ClosedClaims.{closes_claim};

use spx_arena::{SharedClaim, SharedClaims};
use spx_core::{Program, RuleName, Sub, SubId};
use spx_report::{FindFault, Finding, Findings, LimitName, SubRow};
use spx_simplify::closed_claims;
use spx_term::CondKind;
use spx_text::Text;
use spx_vcg::{VcFault, condition_name, shared_conditions};
use sqlite_items::Items;
use std::alloc::{AllocError, Global};

/// The kind of a condition, as it is printed.
pub(crate) fn kind_text(kind: CondKind) -> &'static [u8]
    ensures { result.now ≡ spec.kind_text kind }
{
    match kind {
        CondKind::Division => b"division",
        CondKind::Overflow => b"overflow",
        CondKind::Range => b"range",
        CondKind::Index => b"index",
        CondKind::Post => b"post",
        CondKind::Assert => b"assert",
        CondKind::Check => b"check",
    }
}

/// `unproved: NAME KIND`
#[tactic(auto, using(spx_report::proofs::Texts::texts), unfolding(crate::specs::Findings::unproved_named))]
fn unproved(alloc: Global, name: &Text, claim: &SharedClaim) -> Result<Finding, AllocError>
    ensures { IfOk result (λ finding. finding ≡ spec.unproved_named name.now claim.now.kind claim.now.place) }
{
    let mut text = Vec::from_slice(alloc, b"unproved: ")?;
    text.extend_from_slice(name.as_bytes())?;
    text.extend_from_slice(b" ")?;
    text.extend_from_slice(kind_text(claim.kind))?;
    Ok(Finding {
        place: claim.place,
        rule: RuleName::V1,
        text: Text::new(alloc, text.as_slice())?,
    })
}

/// Adds a finding on a condition that is not closed, after so many others of the subprogram.
fn add_unproved(
    alloc: Global,
    sub: &Sub,
    earlier: usize,
    claim: &SharedClaim,
    closed: bool,
    found: &mut Items<Finding>,
) -> Result<(), AllocError>
    ensures { OnOk result (found.new ≡ found.old ++ left_or (spec.unproved_named (condition_name sub.now.name.name.text (earlier + 1)) claim.now.kind claim.now.place) closed) }
{
    if closed {
        return Ok(());
    }
    let name = condition_name(alloc, sub, earlier)?;
    let finding = unproved(alloc, &name, claim)?;
    found.push(finding)?;
    Ok(())
}

/// A finding for each condition that is not closed.
fn unproved_of(
    alloc: Global,
    sub: &Sub,
    claims: &SharedClaims,
    closed: &[bool],
) -> Result<Items<Finding>, AllocError>
    requires { closed.now ≡ map closes_claim (claims_in claims.now) }
    ensures { IfOk result (λ found. found ≡ spec.unproved_of (numbered sub.now.name.name.text 1 (claims_in claims.now))) }
{
    let mut found = Items::new(alloc);
    for (at, claim) in claims.list.as_slice().iter().enumerate() {
        add_unproved(alloc, sub, at, claim, closed[at], &mut found)?;
    }
    Ok(found)
}

/// The row of a subprogram with so many conditions, of which so many are left.
fn row_of(id: SubId, total: usize, left: usize) -> SubRow
    requires { left ≤ total }
    ensures { result ≡ record { sub = id; total = total; simplified = total - left; scripted = 0; left = left } }
{
    SubRow {
        sub: id,
        total,
        simplified: total - left,
        scripted: 0,
        left,
    }
}

/// The conditions of a subprogram, where they pass no limit.
fn claims_of(alloc: Global, program: &Program, id: SubId) -> Result<SharedClaims, FindFault>
    requires { id.0 < length program.now.subs }
    ensures whole { IfOk result IsWhole }
    ensures claims { (sub : Sub) → slice_get program.now.subs id.0 ≡ Some sub → IfOk result (λ all. claims_in all ≡ map tidy (body_claims program.now sub)) }
    ensures few { (sub : Sub) → slice_get program.now.subs id.0 ≡ Some sub → OnOk result (spec.limit_of program.now sub ≡ None) }
    ensures limit { (sub : Sub) → slice_get program.now.subs id.0 ≡ Some sub → IfErr result (IsFaultOf (spec.limit_of program.now sub)) }
{
    match shared_conditions(alloc, program, id) {
        Ok(claims) => Ok(claims),
        Err(VcFault::TooManyPaths(_)) => Err(FindFault::Limit(LimitName::Paths)),
        Err(VcFault::TooManyNodes(_)) => Err(FindFault::Limit(LimitName::Nodes)),
        Err(VcFault::Memory) => Err(FindFault::Memory),
    }
}

/// Adds the findings and the row of a subprogram, where its conditions pass no limit.
fn add_sub(
    alloc: Global,
    program: &Program,
    id: SubId,
    sub: &Sub,
    found: &mut Findings,
) -> Result<(), FindFault>
    requires { slice_get program.now.subs id.0 ≡ Some sub.now }
    ensures lines { OnOk result (found.new.lines ≡ found.old.lines ++ spec.unproved_of (conditions_of program.now sub.now)) }
    ensures rows { OnOk result (found.new.subs ≡ found.old.subs ++ spec.row_of id.0 (conditions_of program.now sub.now) ∷ []) }
    ensures few { OnOk result (spec.limit_of program.now sub.now ≡ None) }
    ensures limit { IfErr result (IsFaultOf (spec.limit_of program.now sub.now)) }
{
    let mut claims = claims_of(alloc, program, id)?;
    let closed = closed_claims(alloc, &mut claims)?;
    let left = unproved_of(alloc, sub, &claims, closed.as_slice())?;
    let row = row_of(id, claims.list.len(), left.len());
    found.subs.push(row)?;
    found.lines.append(left)?;
    Ok(())
}

/// Adds the findings and the row of a body.
fn add_body(
    alloc: Global,
    program: &Program,
    id: SubId,
    found: &mut Findings,
) -> Result<(), FindFault>
    ensures lines { OnOk result (found.new.lines ≡ found.old.lines ++ spec.lines_at program.now (slice_get program.now.subs id.0)) }
    ensures rows { OnOk result (found.new.subs ≡ found.old.subs ++ cons_option (spec.row_at program.now id) []) }
    ensures few { OnOk result (spec.limit_at program.now (slice_get program.now.subs id.0) ≡ None) }
    ensures limit { IfErr result (IsFaultOf (spec.limit_at program.now (slice_get program.now.subs id.0))) }
{
    match program.subs.get(id.0) {
        Some(sub) => add_sub(alloc, program, id, sub, found),
        None => Ok(()),
    }
}

/// The conditions that are left, and a row for each body, where no limit of conditions is passed.
#[tactic(auto, unfolding(crate::specs::Findings::findings_of))]
pub fn findings(alloc: Global, program: &Program) -> Result<Findings, FindFault>
    ensures exact { IfOk result (λ found. found ≡ spec.findings_of program.now) }
    ensures none { IfOk result (λ found. (found.lines ≡ []) ↔ All (λ sub. ArePlain (conditions_of program.now sub)) (bodies_of program.now)) }
    ensures few { OnOk result (spec.first_limit program.now ≡ None) }
    // The limit is the first that is passed, in the order of the bodies.
    ensures limit { IfErr result (IsFaultOf (spec.first_limit program.now)) }
{
    let mut found = Findings {
        lines: Items::new(alloc),
        subs: Items::new(alloc),
    };
    for id in program.bodies.as_slice() {
        add_body(alloc, program, *id, &mut found)?;
    }
    Ok(found)
}
