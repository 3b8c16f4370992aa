// Statements and annotations.
ghost use Rattle.std.specs.Prelude.{◌≡◌, ◌∷◌, ◌++◌, [], IfOk, length, map, option_map};
ghost use Rattle.std.specs.List.{flat_map};
ghost use Rattle.spx_core.specs.declared.statement.CoreStmt.TheVariants as stmt;
ghost use Rattle.spx_core.specs.ResolvedExpressions.{assignment_to, in_annotation, in_code, resolved_condition, resolved_expr, resolved_reference, resolved_target, type_of_target};
ghost use Rattle.spx_core.specs.ResolvedStatements.{exported_names, in_order, parameters_by, parameters_by_alternative, parameters_by_arm, parameters_by_stmts, place_of_null, resolved_alternative, resolved_arm, resolved_choice, resolved_derives, resolved_item, resolved_predicate, resolved_stmt, resolved_stmts};
ghost use Rattle.spx_core.specs.Resolved.{var_of};
ghost use Rattle.spx_scope.specs.Seen.{seen};

use crate::choices::resolve_listed;
use crate::expression::{
    resolve_code, resolve_condition, resolve_inside, resolve_references, resolve_target,
};
use crate::meaning::type_of_target;
use crate::scene::Scene;
use crate::schemes::resolve_scheme;
use spx_core::{
    CoreAlternative, CoreArm, CoreChoice, CoreDerives, CoreDerivesItem, CoreExpr, CorePredicate,
    CoreStmt, Reference, Target, TypeRow, Var,
};
use spx_scope::{Region, Scope};
use spx_text::Place;
use spx_tree::{
    Alternative, Arm, AssertionKind, Choice, Derives, DerivesItem, Exports, Expr, Name, Predicate,
    Stmt,
};
use sqlite_items::{Boxed, Items};
use std::alloc::{AllocError, Global};

/// Statements in a region. What a loop declares there is taken back after it, and is a variable that comes after those
/// before it.
#[cycle(resolve_stmt)]
pub fn resolve_stmts(
    alloc: Global,
    stmts: &[Stmt],
    scene: &Scene<'_>,
    region: &mut Region,
    vars: &mut Items<Var>,
    outer: &Scope<'_>,
) -> Result<Items<CoreStmt>, AllocError>
    ensures { IfOk result (λ r. ((r, length vars.new) ≡ resolved_stmts scene.now.types scene.now.items (seen outer.now) stmts.now region.old (length vars.old)) × (region.new ≡ region.old) × (vars.new ≡ vars.old ++ map var_of (parameters_by_stmts r))) }
{
    let mut resolved = Items::new(alloc);
    for stmt in stmts {
        resolved.push(resolve_stmt(alloc, stmt, scene, region, vars, outer)?)?;
    }
    Ok(resolved)
}

#[cycle(resolve_stmt)]
fn resolve_arms(
    alloc: Global,
    arms: &[Arm],
    scene: &Scene<'_>,
    region: &mut Region,
    vars: &mut Items<Var>,
    outer: &Scope<'_>,
) -> Result<Items<CoreArm>, AllocError>
    ensures { IfOk result (λ r. ((r, length vars.new) ≡ in_order (map (resolved_arm scene.now.types scene.now.items (seen outer.now)) arms.now) region.old (length vars.old)) × (region.new ≡ region.old) × (vars.new ≡ vars.old ++ map var_of (flat_map parameters_by_arm r))) }
{
    let mut resolved = Items::new(alloc);
    for arm in arms {
        let place = arm.place;
        let condition = resolve_inside(alloc, arm.condition.get(), scene.types(), region, outer)?;
        let body = arm.body.get().as_slice();
        let body = resolve_stmts(alloc, body, scene, region, vars, outer)?;
        resolved.push(CoreArm {
            place,
            condition,
            body,
        })?;
    }
    Ok(resolved)
}

/// The choices of an alternative, unless it is for `others`, inside a region.
fn resolve_choices(
    alloc: Global,
    choices: &Option<Items<Choice>>,
    types: &[TypeRow],
    region: &Region,
    outer: &Scope<'_>,
) -> Result<Option<Items<CoreChoice>>, AllocError>
    ensures { IfOk result (λ r. r ≡ option_map (map (resolved_choice (in_code types.now) (region.now ∷ seen outer.now))) choices.now) }
{
    let scene = Scene::in_code(types);
    resolve_listed(alloc, choices, &scene, &Scope::inside(region, outer))
}

#[cycle(resolve_stmt)]
fn resolve_alternatives(
    alloc: Global,
    alternatives: &[Alternative],
    scene: &Scene<'_>,
    region: &mut Region,
    vars: &mut Items<Var>,
    outer: &Scope<'_>,
) -> Result<Items<CoreAlternative>, AllocError>
    ensures { IfOk result (λ r. ((r, length vars.new) ≡ in_order (map (resolved_alternative scene.now.types scene.now.items (seen outer.now)) alternatives.now) region.old (length vars.old)) × (region.new ≡ region.old) × (vars.new ≡ vars.old ++ map var_of (flat_map parameters_by_alternative r))) }
{
    let mut resolved = Items::new(alloc);
    for alternative in alternatives {
        let choices = resolve_choices(alloc, &alternative.choices, scene.types(), region, outer)?;
        let body = alternative.body.as_slice();
        let body = resolve_stmts(alloc, body, scene, region, vars, outer)?;
        resolved.push(CoreAlternative { choices, body })?;
    }
    Ok(resolved)
}

/// The right side of an assignment to this target.
fn resolve_right(
    alloc: Global,
    types: &[TypeRow],
    target: &Target,
    value: &Expr,
    scope: &Scope<'_>,
) -> Result<Boxed<CoreExpr>, AllocError>
    ensures { IfOk result (λ r. r ≡ resolved_expr (in_code types.now) (type_of_target target.now) (seen scope.now) value.now) }
{
    let of = type_of_target(target);
    resolve_code(alloc, types, of, value, scope)
}

fn resolve_assignment(
    alloc: Global,
    target: &Name,
    value: &Expr,
    scene: &Scene<'_>,
    region: &Region,
    outer: &Scope<'_>,
) -> Result<CoreStmt, AllocError>
    ensures { IfOk result (λ r. r ≡ assignment_to scene.now.types (region.now ∷ seen outer.now) (resolved_target scene.now.types (region.now ∷ seen outer.now) target.now) value.now) }
{
    let types = scene.types();
    let scope = Scope::inside(region, outer);
    let target = resolve_target(alloc, target, types, &scope)?;
    let value = resolve_right(alloc, types, target.get(), value, &scope)?;
    Ok(CoreStmt::Assignment(target, value))
}

fn resolve_assertion(
    alloc: Global,
    kind: AssertionKind,
    place: Place,
    condition: &Expr,
    scene: &Scene<'_>,
    region: &Region,
    outer: &Scope<'_>,
) -> Result<CoreStmt, AllocError>
    ensures { IfOk result (λ r. r ≡ stmt.Assertion kind place (resolved_condition (in_annotation scene.now.types scene.now.items) (region.now ∷ seen outer.now) condition.now)) }
{
    let scope = Scope::inside(region, outer);
    let condition = resolve_condition(alloc, condition, &scene.annotating(), &scope)?;
    Ok(CoreStmt::Assertion(kind, place, condition))
}

fn resolve_exit(
    alloc: Global,
    place: Place,
    condition: &Option<Boxed<Expr>>,
    scene: &Scene<'_>,
    region: &Region,
    outer: &Scope<'_>,
) -> Result<CoreStmt, AllocError>
    ensures { IfOk result (λ r. r ≡ stmt.Exit place (option_map (resolved_condition (in_code scene.now.types) (region.now ∷ seen outer.now)) condition.now)) }
{
    match condition {
        Some(condition) => {
            let condition = condition.get();
            let condition = resolve_inside(alloc, condition, scene.types(), region, outer)?;
            Ok(CoreStmt::Exit(place, Some(condition)))
        }
        None => Ok(CoreStmt::Exit(place, None)),
    }
}

#[cycle(resolve_stmt)]
fn resolve_stmt(
    alloc: Global,
    stmt: &Stmt,
    scene: &Scene<'_>,
    region: &mut Region,
    vars: &mut Items<Var>,
    outer: &Scope<'_>,
) -> Result<CoreStmt, AllocError>
    ensures { IfOk result (λ r. ((r, length vars.new) ≡ resolved_stmt scene.now.types scene.now.items (seen outer.now) stmt.now region.old (length vars.old)) × (region.new ≡ region.old) × (vars.new ≡ vars.old ++ map var_of (parameters_by r))) }
{
    match stmt {
        Stmt::Null(place) => Ok(CoreStmt::Null(*place)),
        Stmt::Assignment(target, value) => {
            resolve_assignment(alloc, target.get(), value.get(), scene, region, outer)
        }
        Stmt::If(arms, otherwise, closing) => {
            let arms = arms.get().as_slice();
            let arms = resolve_arms(alloc, arms, scene, region, vars, outer)?;
            let Some(stmts) = otherwise else {
                return Ok(CoreStmt::If(arms, None, *closing.get()));
            };
            let stmts = stmts.get().as_slice();
            let stmts = resolve_stmts(alloc, stmts, scene, region, vars, outer)?;
            Ok(CoreStmt::If(arms, Some(stmts), *closing.get()))
        }
        Stmt::Case(place, selector, alternatives, closing) => {
            let selector = resolve_inside(alloc, selector.get(), scene.types(), region, outer)?;
            let given = alternatives.get().as_slice();
            let alternatives = resolve_alternatives(alloc, given, scene, region, vars, outer)?;
            Ok(CoreStmt::Case(*place.get(), selector, alternatives, *closing.get()))
        }
        Stmt::Loop(scheme, word, body, closing) => {
            let count = region.len();
            let scheme = resolve_scheme(alloc, scheme.get(), scene.types(), region, vars, outer)?;
            let body = body.get().as_slice();
            let body = resolve_stmts(alloc, body, scene, region, vars, outer)?;
            region.truncate(count);
            Ok(CoreStmt::Loop(scheme.into_inner(), *word.get(), body, *closing.get()))
        }
        Stmt::Assertion(kind, place, condition) => {
            let condition = condition.get();
            resolve_assertion(alloc, *kind, *place, condition, scene, region, outer)
        }
        Stmt::Exit(place, condition) => {
            resolve_exit(alloc, *place, condition, scene, region, outer)
        }
    }
}

/// The place of `null`, from which on nothing is exported.
fn place_of_null(exports: &Exports) -> Option<Place>
    ensures { result ≡ place_of_null exports.now }
{
    match exports {
        Exports::Names(_) => None,
        Exports::Null(place) => Some(*place),
    }
}

/// The exports of an item; at `null` there are none.
fn resolve_exports(
    alloc: Global,
    exports: &Exports,
    scope: &Scope<'_>,
) -> Result<Items<Reference>, AllocError>
    ensures { IfOk result (λ r. r ≡ map (resolved_reference (seen scope.now)) (exported_names exports.now)) }
{
    match exports {
        Exports::Names(names) => resolve_references(alloc, names.as_slice(), scope),
        Exports::Null(_) => Ok(Items::new(alloc)),
    }
}

fn resolve_item(
    alloc: Global,
    item: &DerivesItem,
    scope: &Scope<'_>,
) -> Result<CoreDerivesItem, AllocError>
    ensures { IfOk result (λ r. r ≡ resolved_item (seen scope.now) item.now) }
{
    let null = place_of_null(&item.exports);
    let exports = resolve_exports(alloc, &item.exports, scope)?;
    let imports = resolve_references(alloc, item.imports.names.as_slice(), scope)?;
    Ok(CoreDerivesItem {
        null,
        exports,
        itself: item.imports.itself,
        imports,
    })
}

fn resolve_items(
    alloc: Global,
    items: &[DerivesItem],
    scope: &Scope<'_>,
) -> Result<Items<CoreDerivesItem>, AllocError>
    ensures { IfOk result (λ r. r ≡ map (resolved_item (seen scope.now)) items.now) }
{
    let mut resolved = Items::new(alloc);
    for item in items {
        resolved.push(resolve_item(alloc, item, scope)?)?;
    }
    Ok(resolved)
}

/// The dependency relation of a subprogram, if it has one.
pub fn resolve_derives(
    alloc: Global,
    derives: &Option<Derives>,
    scope: &Scope<'_>,
) -> Result<Option<CoreDerives>, AllocError>
    ensures { IfOk result (λ r. r ≡ option_map (resolved_derives (seen scope.now)) derives.now) }
{
    match derives {
        Some(derives) => Ok(Some(CoreDerives {
            place: derives.place,
            items: resolve_items(alloc, derives.items.as_slice(), scope)?,
        })),
        None => Ok(None),
    }
}

/// The precondition or the postcondition of a subprogram, if it has one.
pub fn resolve_predicate(
    alloc: Global,
    predicate: &Option<Predicate>,
    scene: &Scene<'_>,
    scope: &Scope<'_>,
) -> Result<Option<CorePredicate>, AllocError>
    ensures { IfOk result (λ r. r ≡ option_map (resolved_predicate scene.now (seen scope.now)) predicate.now) }
{
    match predicate {
        Some(predicate) => Ok(Some(CorePredicate {
            place: predicate.place,
            condition: resolve_condition(alloc, predicate.condition.get(), scene, scope)?,
        })),
        None => Ok(None),
    }
}

/// The precondition of a subprogram, if it has one: no value on entry may be named there.
pub fn resolve_precondition(
    alloc: Global,
    pre: &Option<Predicate>,
    types: &[TypeRow],
    scope: &Scope<'_>,
) -> Result<Option<CorePredicate>, AllocError>
    ensures { IfOk result (λ r. r ≡ option_map (resolved_predicate (in_code types.now) (seen scope.now)) pre.now) }
{
    resolve_predicate(alloc, pre, &Scene::in_code(types), scope)
}
