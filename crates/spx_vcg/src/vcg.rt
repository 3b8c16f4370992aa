// The verification conditions of a subprogram.
ghost use Rattle.std.specs.Prelude.{◌≡◌, ◌<◌, ◌+◌, false, Some, length, map, slice_get, IfErr, IfOk, OnOk};
ghost use Rattle.spx_term.specs.declared.condition.Condition.{Condition};
ghost use Rattle.spx_term.specs.Steps.{tidy};
ghost use Rattle.spx_arena.specs.Claims.{AreIds, IsWhole, claim_at, claims_in, trees_at};
ghost use Rattle.spx_core.specs.declared.program.Program.{Program};
ghost use Rattle.spx_core.specs.declared.subprogram.Sub.{Sub};
ghost use Rattle.spx_paths.specs.Conditions.{body_claims, condition, condition_name, conditions_of, numbered};
ghost use Rattle.spx_paths.specs.Limits.{has_large_condition, has_many_paths};
ghost use Rattle.spx_vcg.specs.Largeness.{IsFaultOf};

use crate::VcFault;
use crate::limit::has_large_claim;
use spx_arena::{SharedClaim, SharedClaims, TermId, Terms};
use spx_core::{Program, Sub, SubId};
use spx_num::decimal;
use spx_paths::{PathFault, body_steps};
use spx_steps::claims_from;
use spx_term::{Condition, MOST_NODES, Term};
use spx_text::Text;
use sqlite_items::Items;
use std::alloc::{AllocError, Global};

/// The conditions on shared terms, unless they pass a limit.
fn conditions_within(alloc: Global, program: &Program, sub: &Sub) -> Result<SharedClaims, VcFault>
    ensures whole { IfOk result IsWhole }
    ensures claims { IfOk result (λ all. claims_in all ≡ map tidy (body_claims program.now sub.now)) }
    ensures few { OnOk result ((has_many_paths sub.now ≡ false) × (has_large_condition program.now sub.now ≡ false)) }
    ensures refused { IfErr result (IsFaultOf program.now sub.now) }
{
    let all = match body_steps(alloc, program, sub) {
        Ok(all) => all,
        Err(PathFault::TooManyPaths(count)) => return Err(VcFault::TooManyPaths(count)),
        Err(PathFault::Memory) => return Err(VcFault::Memory),
    };
    let claims = claims_from(alloc, &all.steps, &all.roots)?;
    if has_large_claim(alloc, &claims)? {
        return Err(VcFault::TooManyNodes(MOST_NODES + 1));
    }
    Ok(claims)
}

/// The verification conditions of a subprogram on shared terms, in the order in which they are named.
pub fn shared_conditions(
    alloc: Global,
    program: &Program,
    id: SubId,
) -> Result<SharedClaims, VcFault>
    requires { id.0 < length program.now.subs }
    ensures whole { IfOk result IsWhole }
    ensures claims { (sub : Sub) → slice_get program.now.subs id.0 ≡ Some sub → IfOk result (λ all. claims_in all ≡ map tidy (body_claims program.now sub)) }
    // The limits come exactly where there are too many paths, or some condition has too many nodes.
    ensures few { (sub : Sub) → slice_get program.now.subs id.0 ≡ Some sub → OnOk result ((has_many_paths sub ≡ false) × (has_large_condition program.now sub ≡ false)) }
    ensures refused { (sub : Sub) → slice_get program.now.subs id.0 ≡ Some sub → IfErr result (IsFaultOf program.now sub) }
{
    conditions_within(alloc, program, &program.subs.as_slice()[id.0])
}

/// `SUB.N`, after so many conditions.
pub fn condition_name(alloc: Global, sub: &Sub, earlier: usize) -> Result<Text, AllocError>
    ensures { IfOk result (λ text. text ≡ condition_name sub.now.name.name.text (earlier + 1)) }
{
    let mut name = Vec::from_slice(alloc, sub.name.name.text.as_bytes())?;
    name.extend_from_slice(b".")?;
    name.extend_from_slice(decimal(alloc, earlier as i128 + 1)?.as_slice())?;
    Text::new(alloc, name.as_slice())
}

/// The trees of several terms.
fn trees(alloc: Global, terms: &Terms, ids: &[TermId]) -> Result<Items<Term>, AllocError>
    requires { AreIds (length terms.now) ids.now }
    ensures { IfOk result (λ trees. trees ≡ trees_at terms.now ids.now) }
{
    let mut trees = Items::new(alloc);
    for id in ids {
        trees.push(terms.tree_of(alloc, *id)?)?;
    }
    Ok(trees)
}

/// A condition as trees, after so many others.
fn condition(
    alloc: Global,
    sub: &Sub,
    earlier: usize,
    claims: &SharedClaims,
    claim: &SharedClaim,
) -> Result<Condition, AllocError>
    requires whole { IsWhole claims.now }
    requires facts { claim.now.facts.0 < length claims.now.facts }
    requires goals { AreIds (length claims.now.terms) claim.now.goals }
    ensures { IfOk result (λ made. made ≡ condition sub.now.name.name.text (earlier + 1) (claim_at claims.now.terms claims.now.facts claim.now)) }
{
    let facts = claims.facts.facts(alloc, claim.facts)?;
    Ok(Condition {
        name: condition_name(alloc, sub, earlier)?,
        kind: claim.kind,
        place: claim.place,
        hyps: trees(alloc, &claims.terms, facts.as_slice())?,
        goals: trees(alloc, &claims.terms, claim.goals.as_slice())?,
    })
}

/// Conditions as trees, named by their numbers.
fn as_trees(alloc: Global, sub: &Sub, claims: &SharedClaims) -> Result<Items<Condition>, AllocError>
    requires { IsWhole claims.now }
    ensures { IfOk result (λ all. all ≡ numbered sub.now.name.name.text 1 (claims_in claims.now)) }
{
    let mut all = Items::new(alloc);
    for (at, claim) in claims.list.as_slice().iter().enumerate() {
        all.push(condition(alloc, sub, at, claims, claim)?)?;
    }
    Ok(all)
}

/// The verification conditions of a subprogram as trees, unless they pass a limit.
fn trees_within(alloc: Global, program: &Program, sub: &Sub) -> Result<Items<Condition>, VcFault>
    ensures exact { IfOk result (λ all. all ≡ conditions_of program.now sub.now) }
    ensures few { OnOk result ((has_many_paths sub.now ≡ false) × (has_large_condition program.now sub.now ≡ false)) }
    ensures refused { IfErr result (IsFaultOf program.now sub.now) }
{
    let claims = conditions_within(alloc, program, sub)?;
    Ok(as_trees(alloc, sub, &claims)?)
}

/// The verification conditions of a subprogram, in the order in which they are named.
pub fn conditions(alloc: Global, program: &Program, id: SubId) -> Result<Items<Condition>, VcFault>
    requires { id.0 < length program.now.subs }
    ensures exact { (sub : Sub) → slice_get program.now.subs id.0 ≡ Some sub → IfOk result (λ all. all ≡ conditions_of program.now sub) }
    // The limits come exactly where there are too many paths, or some condition has too many nodes.
    ensures few { (sub : Sub) → slice_get program.now.subs id.0 ≡ Some sub → OnOk result ((has_many_paths sub ≡ false) × (has_large_condition program.now sub ≡ false)) }
    ensures refused { (sub : Sub) → slice_get program.now.subs id.0 ≡ Some sub → IfErr result (IsFaultOf program.now sub) }
{
    trees_within(alloc, program, &program.subs.as_slice()[id.0])
}
