// Parts of a declaration: in each, the names that it declares are hidden (Ada 95 RM 8.3).
ghost use Rattle.std.specs.Prelude.{◌≡◌, IfOk, option_map};
ghost use Rattle.spx_core.specs.declared.rule.ExprType.TheVariants.{Universal};
ghost use Rattle.spx_core.specs.ResolvedExpressions.{in_declaration, resolved_expr, resolved_range, resolved_reference, resolved_static};
ghost use Rattle.spx_core.specs.DeclaredNames.{around_names};
ghost use Rattle.spx_scope.specs.Seen.{seen};

use crate::expression::{resolve_expr, resolve_reference};
use crate::scene::Scene;
use spx_core::{CoreExpr, CoreRange, ExprType, Reference, TypeRow};
use spx_scope::{Region, Scope};
use spx_tree::{Expr, Identifier, Name, Range};
use sqlite_items::Boxed;
use std::alloc::{AllocError, Global};

/// The type name of a declaration of these names.
pub fn resolve_type_name(
    alloc: Global,
    region: &Region,
    outer: &Scope<'_>,
    names: &[Identifier],
    type_name: &Name,
) -> Result<Boxed<Reference>, AllocError>
    ensures { IfOk result (λ r. r ≡ resolved_reference (around_names (seen outer.now) region.now names.now) type_name.now) }
{
    let scope = Scope::inside(region, outer);
    let type_name = resolve_reference(alloc, type_name, &Scope::hiding(names, &scope))?;
    Boxed::new(alloc, type_name)
}

/// The type name of constants, if there is one.
pub fn resolve_type_mark(
    alloc: Global,
    region: &Region,
    outer: &Scope<'_>,
    names: &[Identifier],
    type_name: &Option<Boxed<Name>>,
) -> Result<Option<Boxed<Reference>>, AllocError>
    ensures { IfOk result (λ r. r ≡ option_map (resolved_reference (around_names (seen outer.now) region.now names.now)) type_name.now) }
{
    match type_name {
        Some(name) => Ok(Some(resolve_type_name(alloc, region, outer, names, name.get())?)),
        None => Ok(None),
    }
}

/// The value of constants, an initial value, or a bound, where it meets this type.
fn resolve_value(
    alloc: Global,
    scene: &Scene<'_>,
    of: ExprType,
    region: &Region,
    outer: &Scope<'_>,
    names: &[Identifier],
    value: &Expr,
) -> Result<Boxed<CoreExpr>, AllocError>
    ensures { IfOk result (λ r. r ≡ resolved_expr scene.now of (around_names (seen outer.now) region.now names.now) value.now) }
{
    let scope = Scope::inside(region, outer);
    resolve_expr(alloc, scene, of, value, &Scope::hiding(names, &scope))
}

/// The initial value of variables, if they have one.
pub fn resolve_initial(
    alloc: Global,
    scene: &Scene<'_>,
    region: &Region,
    outer: &Scope<'_>,
    names: &[Identifier],
    value: &Option<Boxed<Expr>>,
) -> Result<Option<Boxed<CoreExpr>>, AllocError>
    ensures { IfOk result (λ r. r ≡ option_map (resolved_static scene.now (around_names (seen outer.now) region.now names.now)) value.now) }
{
    match value {
        Some(value) => {
            let of = ExprType::Universal;
            Ok(Some(resolve_value(alloc, scene, of, region, outer, names, value.get())?))
        }
        None => Ok(None),
    }
}

/// The range of a type, whose bounds meet this type.
fn resolve_range(
    alloc: Global,
    scene: &Scene<'_>,
    of: ExprType,
    region: &Region,
    outer: &Scope<'_>,
    names: &[Identifier],
    range: &Range,
) -> Result<CoreRange, AllocError>
    ensures { IfOk result (λ r. r ≡ resolved_range scene.now of (around_names (seen outer.now) region.now names.now) range.now) }
{
    let low = resolve_value(alloc, scene, of, region, outer, names, range.low.get())?;
    let high = resolve_value(alloc, scene, of, region, outer, names, range.high.get())?;
    Ok(CoreRange { low, high })
}

/// The range of a subtype, if it has one. Its bounds meet this type.
fn resolve_constraint(
    alloc: Global,
    scene: &Scene<'_>,
    of: ExprType,
    region: &Region,
    outer: &Scope<'_>,
    names: &[Identifier],
    range: &Option<Boxed<Range>>,
) -> Result<Option<Boxed<CoreRange>>, AllocError>
    ensures { IfOk result (λ r. r ≡ option_map (resolved_range scene.now of (around_names (seen outer.now) region.now names.now)) range.now) }
{
    match range {
        Some(range) => {
            let resolved = resolve_range(alloc, scene, of, region, outer, names, range.get())?;
            Ok(Some(Boxed::new(alloc, resolved)?))
        }
        None => Ok(None),
    }
}

/// The range of a parameter, if it has one. Its bounds meet this type.
pub fn resolve_bounds(
    alloc: Global,
    scene: &Scene<'_>,
    of: ExprType,
    region: &Region,
    outer: &Scope<'_>,
    names: &[Identifier],
    range: &Option<Range>,
) -> Result<Option<CoreRange>, AllocError>
    ensures { IfOk result (λ r. r ≡ option_map (resolved_range scene.now of (around_names (seen outer.now) region.now names.now)) range.now) }
{
    match range {
        Some(range) => Ok(Some(resolve_range(alloc, scene, of, region, outer, names, range)?)),
        None => Ok(None),
    }
}

/// The range of a type in its declaration.
pub fn declared_range(
    alloc: Global,
    types: &[TypeRow],
    region: &Region,
    outer: &Scope<'_>,
    names: &[Identifier],
    range: &Range,
) -> Result<CoreRange, AllocError>
    ensures { IfOk result (λ r. r ≡ resolved_range (in_declaration types.now) Universal (around_names (seen outer.now) region.now names.now) range.now) }
{
    let scene = Scene::in_declaration(types);
    resolve_range(
        alloc,
        &scene,
        ExprType::Universal,
        region,
        outer,
        names,
        range,
    )
}

/// The range of a subtype in its declaration, if it has one.
pub fn declared_constraint(
    alloc: Global,
    types: &[TypeRow],
    region: &Region,
    outer: &Scope<'_>,
    names: &[Identifier],
    range: &Option<Boxed<Range>>,
) -> Result<Option<Boxed<CoreRange>>, AllocError>
    ensures { IfOk result (λ r. r ≡ option_map (resolved_range (in_declaration types.now) Universal (around_names (seen outer.now) region.now names.now)) range.now) }
{
    let scene = Scene::in_declaration(types);
    resolve_constraint(
        alloc,
        &scene,
        ExprType::Universal,
        region,
        outer,
        names,
        range,
    )
}

/// The value of constants in their declaration.
pub fn declared_value(
    alloc: Global,
    types: &[TypeRow],
    region: &Region,
    outer: &Scope<'_>,
    names: &[Identifier],
    value: &Expr,
) -> Result<Boxed<CoreExpr>, AllocError>
    ensures { IfOk result (λ r. r ≡ resolved_static (in_declaration types.now) (around_names (seen outer.now) region.now names.now) value.now) }
{
    let scene = Scene::in_declaration(types);
    resolve_value(
        alloc,
        &scene,
        ExprType::Universal,
        region,
        outer,
        names,
        value,
    )
}
