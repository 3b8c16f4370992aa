// Subprograms and programs.
ghost use Rattle.std.specs.Prelude.{◌≡◌, ◌∷◌, ◌++◌, ◌+◌, ◌-◌, [], IfOk, length, map, option_map};
ghost use Rattle.std.specs.List.{flat_map, range_with_len};
ghost use Rattle.spx_core.specs.ResolvedExpressions.{in_annotation, in_code};
ghost use Rattle.spx_core.specs.DeclaredNames.{declaring, declaring_all, defining};
ghost use Rattle.spx_core.specs.ResolvedStatements.{parameters_by_stmts, resolved_derives, resolved_predicate, resolved_stmts};
ghost use Rattle.spx_core.specs.ResolvedDeclarations.{declared_by_decls, declared_by_params, resolved_decls, rows_by_decls, variables_by_decls};
ghost use Rattle.spx_core.specs.Resolved.{around_body, own_types, own_vars, params_of, resolved, resolved_formal_part, resolved_sub, resolved_subs, sub_at, var_of};
ghost use Rattle.spx_core.specs.Dependency.{items_of};
ghost use Rattle.spx_scope.specs.Seen.{seen};
ghost use Rattle.spx_naming.specs.Before.{before_in};
ghost use Rattle.spx_naming.specs.Ids.{ids_from};
ghost use Rattle.spx_naming.specs.Units.{subprogram_of};

use crate::changed::Changed;
use crate::declaration::{resolve_decls, resolve_params};
use crate::names::declare;
use crate::scene::Scene;
use crate::statement::{resolve_derives, resolve_precondition, resolve_predicate, resolve_stmts};
use crate::tables::Tables;
use spx_core::{
    CoreDecl, CoreDerives, CoreFormalPart, CorePredicate, CoreStmt, CoreUnit, Defining, Entity,
    Program, Sub, SubId, TypeRow, Var, VarId,
};
use spx_scope::{Region, Scope, Standard};
use spx_tree::{Identifier, Predicate, Subprogram, Unit};
use sqlite_items::{Boxed, Items};
use std::alloc::{AllocError, Global};
use std::slice;

/// A region in which only the name of a subprogram is declared.
fn region_of(alloc: Global, name: &Defining) -> Result<Region, AllocError>
    ensures { IfOk result (λ region. region ≡ declaring [] name.now) }
{
    let mut region = Region::new(alloc)?;
    region.declare(name.name.text.copy(alloc)?, name.entity)?;
    Ok(region)
}

/// The formal part of a subprogram, whose name is hidden there.
fn resolve_formal_part(
    alloc: Global,
    region: &mut Region,
    vars: &mut Items<Var>,
    everywhere: &Standard,
    subprogram: &Subprogram,
) -> Result<Option<CoreFormalPart>, AllocError>
    requires { region.old ≡ [] }
    ensures { IfOk result (λ r. (r ≡ option_map (resolved_formal_part subprogram.now.name (length vars.old)) subprogram.now.formal_part) × (region.new ≡ declaring_all [] (declared_by_params (params_of r))) × (vars.new ≡ vars.old ++ map var_of (declared_by_params (params_of r)))) }
{
    let Some(part) = &subprogram.formal_part else {
        return Ok(None);
    };
    let outermost = Scope::outermost(everywhere);
    let outer = Scope::hiding(slice::from_ref(&subprogram.name), &outermost);
    let params = resolve_params(alloc, region, vars, &outer, part.params.as_slice())?;
    Ok(Some(CoreFormalPart {
        place: part.place,
        params,
    }))
}

/// The variables from a position on, up to another.
#[tactic(auto, using(crate::proofs::Declared::range_step, std::proofs::lemmas::Grind::common_steps))]
fn ids_between(alloc: Global, first: usize, end: usize) -> Result<Items<VarId>, AllocError>
    ensures { IfOk result (λ ids. ids ≡ ids_from first (end - first)) }
{
    let mut ids = Items::new(alloc);
    for position in first..end {
        ids.push(VarId(position))?;
    }
    Ok(ids)
}

/// The postcondition of a subprogram, if it has one, inside a region.
fn resolve_post(
    alloc: Global,
    post: &Option<Predicate>,
    types: &[TypeRow],
    changed: &Changed<'_>,
    region: &Region,
    outer: &Scope<'_>,
) -> Result<Option<CorePredicate>, AllocError>
    ensures { IfOk result (λ r. r ≡ option_map (resolved_predicate (in_annotation types.now changed.now) (region.now ∷ seen outer.now)) post.now) }
{
    let scene = Scene::in_annotation(types, changed);
    resolve_predicate(alloc, post, &scene, &Scope::inside(region, outer))
}

/// The statements of a subprogram, which see all its types.
fn resolve_statements(
    alloc: Global,
    changed: &Changed<'_>,
    region: &mut Region,
    tables: &mut Tables,
    outer: &Scope<'_>,
    subprogram: &Subprogram,
) -> Result<Items<CoreStmt>, AllocError>
    ensures statements { IfOk result (λ r. r ≡ (resolved_stmts tables.old.types changed.now (seen outer.now) subprogram.now.statements region.old (length tables.old.vars)).0) }
    ensures vars { IfOk result (λ r. tables.new.vars ≡ tables.old.vars ++ map var_of (parameters_by_stmts r)) }
    ensures types { tables.new.types ≡ tables.old.types }
{
    let scene = Scene::in_annotation(tables.types.as_slice(), changed);
    let vars = &mut tables.vars;
    let statements = subprogram.statements.as_slice();
    resolve_stmts(alloc, statements, &scene, region, vars, outer)
}

/// The postcondition, the declarations and the statements of a subprogram.
#[derive(Drop)]
struct Body {
    post: Option<CorePredicate>,
    declarations: Items<CoreDecl>,
    /// How many variables are declared there.
    local_count: usize,
    statements: Items<CoreStmt>,
}

/// The postcondition and the body of a subprogram, of which the relation changes these variables.
fn resolve_body(
    alloc: Global,
    formals: Region,
    tables: &mut Tables,
    outer: &Scope<'_>,
    changed: &Changed<'_>,
    subprogram: &Subprogram,
) -> Result<Boxed<Body>, AllocError>
    ensures post { IfOk result (λ r. r.post ≡ option_map (resolved_predicate (in_annotation tables.old.types changed.now) (formals ∷ seen outer.now)) subprogram.now.post) }
    ensures declarations { IfOk result (λ r. r.declarations ≡ resolved_decls (seen outer.now) formals (before_in tables.old) subprogram.now.declarations) }
    ensures local_count { IfOk result (λ r. r.local_count ≡ length (variables_by_decls r.declarations)) }
    ensures statements { IfOk result (λ r. r.statements ≡ (resolved_stmts tables.new.types changed.now (seen outer.now) subprogram.now.statements (declaring_all formals (declared_by_decls r.declarations)) (length tables.old.vars + r.local_count)).0) }
    ensures vars { IfOk result (λ r. tables.new.vars ≡ tables.old.vars ++ map var_of (variables_by_decls r.declarations ++ parameters_by_stmts r.statements)) }
    ensures types { IfOk result (λ r. tables.new.types ≡ tables.old.types ++ rows_by_decls r.declarations) }
{
    let mut region = formals;
    let types = tables.types.as_slice();
    let post = resolve_post(alloc, &subprogram.post, types, changed, &region, outer)?;
    let first = tables.vars.len();
    let declarations = subprogram.declarations.as_slice();
    let declarations = resolve_decls(alloc, &mut region, tables, outer, declarations)?;
    let local_count = tables.vars.len() - first;
    let statements = resolve_statements(alloc, changed, &mut region, tables, outer, subprogram)?;
    Boxed::new(
        alloc,
        Body {
            post,
            declarations,
            local_count,
            statements,
        },
    )
}

/// The postcondition and the body of a subprogram with this dependency relation.
fn resolve_under(
    alloc: Global,
    formals: Region,
    tables: &mut Tables,
    outer: &Scope<'_>,
    derives: &Option<CoreDerives>,
    subprogram: &Subprogram,
) -> Result<Boxed<Body>, AllocError>
    ensures post { IfOk result (λ r. r.post ≡ option_map (resolved_predicate (in_annotation tables.old.types (items_of derives.now)) (formals ∷ seen outer.now)) subprogram.now.post) }
    ensures declarations { IfOk result (λ r. r.declarations ≡ resolved_decls (seen outer.now) formals (before_in tables.old) subprogram.now.declarations) }
    ensures local_count { IfOk result (λ r. r.local_count ≡ length (variables_by_decls r.declarations)) }
    ensures statements { IfOk result (λ r. r.statements ≡ (resolved_stmts tables.new.types (items_of derives.now) (seen outer.now) subprogram.now.statements (declaring_all formals (declared_by_decls r.declarations)) (length tables.old.vars + r.local_count)).0) }
    ensures vars { IfOk result (λ r. tables.new.vars ≡ tables.old.vars ++ map var_of (variables_by_decls r.declarations ++ parameters_by_stmts r.statements)) }
    ensures types { IfOk result (λ r. tables.new.types ≡ tables.old.types ++ rows_by_decls r.declarations) }
{
    let changed = Changed::by(alloc, derives)?;
    resolve_body(alloc, formals, tables, outer, &changed, subprogram)
}

/// What stands after the formal part of a subprogram.
#[derive(Drop)]
struct Inner {
    derives: Option<CoreDerives>,
    pre: Option<CorePredicate>,
    body: Boxed<Body>,
}

/// The annotations and the body of a subprogram: there its name and its formals are seen.
fn resolve_inner(
    alloc: Global,
    formals: Region,
    tables: &mut Tables,
    everywhere: &Standard,
    name: &Defining,
    subprogram: &Subprogram,
) -> Result<Boxed<Inner>, AllocError>
    ensures derives { IfOk result (λ r. r.derives ≡ option_map (resolved_derives (formals ∷ around_body name.now)) subprogram.now.derives) }
    ensures pre { IfOk result (λ r. r.pre ≡ option_map (resolved_predicate (in_code tables.old.types) (formals ∷ around_body name.now)) subprogram.now.pre) }
    ensures post { IfOk result (λ r. r.body.post ≡ option_map (resolved_predicate (in_annotation tables.old.types (items_of r.derives)) (formals ∷ around_body name.now)) subprogram.now.post) }
    ensures declarations { IfOk result (λ r. r.body.declarations ≡ resolved_decls (around_body name.now) formals (before_in tables.old) subprogram.now.declarations) }
    ensures local_count { IfOk result (λ r. r.body.local_count ≡ length (variables_by_decls r.body.declarations)) }
    ensures statements { IfOk result (λ r. r.body.statements ≡ (resolved_stmts tables.new.types (items_of r.derives) (around_body name.now) subprogram.now.statements (declaring_all formals (declared_by_decls r.body.declarations)) (length tables.old.vars + r.body.local_count)).0) }
    ensures vars { IfOk result (λ r. tables.new.vars ≡ tables.old.vars ++ map var_of (variables_by_decls r.body.declarations ++ parameters_by_stmts r.body.statements)) }
    ensures types { IfOk result (λ r. tables.new.types ≡ tables.old.types ++ rows_by_decls r.body.declarations) }
{
    let outermost = Scope::outermost(everywhere);
    let own_name = region_of(alloc, name)?;
    let outer = Scope::inside(&own_name, &outermost);
    let scope = Scope::inside(&formals, &outer);
    let derives = resolve_derives(alloc, &subprogram.derives, &scope)?;
    let types = tables.types.as_slice();
    let pre = resolve_precondition(alloc, &subprogram.pre, types, &scope)?;
    let body = resolve_under(alloc, formals, tables, &outer, &derives, subprogram)?;
    Boxed::new(alloc, Inner { derives, pre, body })
}

fn copy_end_name(alloc: Global, name: &Option<Identifier>) -> Result<Option<Identifier>, AllocError>
    ensures { IfOk result (λ copied. copied ≡ name.now) }
{
    match name {
        Some(name) => Ok(Some(name.copy(alloc)?)),
        None => Ok(None),
    }
}

/// A subprogram, of which the name is declared.
fn resolve_subprogram(
    alloc: Global,
    tables: &mut Tables,
    everywhere: &Standard,
    name: Boxed<Defining>,
    subprogram: &Subprogram,
) -> Result<Boxed<Sub>, AllocError>
    ensures { IfOk result (λ sub. (sub ≡ resolved_sub name (before_in tables.old) subprogram.now) × (tables.new.vars ≡ tables.old.vars ++ own_vars sub) × (tables.new.types ≡ tables.old.types ++ own_types sub)) }
{
    let first = tables.vars.len();
    let mut formals = Region::new(alloc)?;
    let vars = &mut tables.vars;
    let formal_part = resolve_formal_part(alloc, &mut formals, vars, everywhere, subprogram)?;
    let formal_count = tables.vars.len() - first;
    let inner = resolve_inner(alloc, formals, tables, everywhere, name.get(), subprogram)?;
    let vars = ids_between(alloc, first, tables.vars.len())?;
    let end_name = copy_end_name(alloc, &subprogram.end_name)?;
    let inner = inner.into_inner();
    let body = inner.body.into_inner();
    Boxed::new(
        alloc,
        Sub {
            place: subprogram.place,
            name: name.into_inner(),
            formal_part,
            derives: inner.derives,
            pre: inner.pre,
            post: body.post,
            declarations: body.declarations,
            statements: body.statements,
            end: subprogram.end,
            end_name,
            vars,
            formal_count,
            local_count: body.local_count,
        },
    )
}

/// The subprogram that a unit is.
fn subprogram_of(unit: &Unit) -> &Subprogram
    ensures { result.now ≡ subprogram_of unit.now }
{
    let Unit::Subprogram(subprogram) = unit;
    subprogram.get()
}

/// Declares the name of a unit in the library.
fn declare_unit(
    alloc: Global,
    library: &mut Region,
    outermost: &Scope<'_>,
    entity: Entity,
    name: &Identifier,
) -> Result<Boxed<Defining>, AllocError>
    ensures { IfOk result (λ d. (d ≡ defining library.old entity name.now) × (library.new ≡ declaring library.old d)) }
{
    let defined = declare(alloc, library, outermost, entity, name)?;
    Boxed::new(alloc, defined)
}

/// The subprograms of the units. Each name is declared in the library only so that a second one is found (`again`).
fn resolve_units(
    alloc: Global,
    tables: &mut Tables,
    everywhere: &Standard,
    units: &[Unit],
) -> Result<Items<Sub>, AllocError>
    ensures { IfOk result (λ subs. (subs ≡ resolved_subs [] 0 (before_in tables.old) units.now) × (tables.new.vars ≡ tables.old.vars ++ flat_map own_vars subs) × (tables.new.types ≡ tables.old.types ++ flat_map own_types subs)) }
{
    let outermost = Scope::outermost(everywhere);
    let mut library = Region::new(alloc)?;
    let mut subs = Items::new(alloc);
    for unit in units {
        let subprogram = subprogram_of(unit);
        let entity = Entity::Subprogram(SubId(subs.len()));
        let name = declare_unit(alloc, &mut library, &outermost, entity, &subprogram.name)?;
        let sub = resolve_subprogram(alloc, tables, everywhere, name, subprogram)?;
        subs.push(sub.into_inner())?;
    }
    Ok(subs)
}

/// An id for each of so many subprograms, in their order.
#[tactic(auto, using(crate::proofs::Declared::range_step, std::proofs::lemmas::Grind::common_steps))]
fn sub_ids(alloc: Global, count: usize) -> Result<Items<SubId>, AllocError>
    ensures { IfOk result (λ ids. ids ≡ map sub_at (range_with_len 0 count)) }
{
    let mut ids = Items::new(alloc);
    for position in 0..count {
        ids.push(SubId(position))?;
    }
    Ok(ids)
}

/// The library units that the bodies of these subprograms are.
fn units_of(alloc: Global, bodies: &[SubId]) -> Result<Items<CoreUnit>, AllocError>
    ensures { IfOk result (λ units. units ≡ map CoreUnit.Subprogram bodies.now) }
{
    let mut units = Items::new(alloc);
    for id in bodies {
        units.push(CoreUnit::Subprogram(*id))?;
    }
    Ok(units)
}

/// The program that the units are.
pub fn make_program(alloc: Global, units: &[Unit]) -> Result<Program, AllocError>
    ensures { IfOk result (λ program. program ≡ resolved units.now) }
{
    let mut tables = Tables::new(alloc)?;
    let subs = resolve_units(alloc, &mut tables, &Standard::new(alloc)?, units)?;
    let bodies = sub_ids(alloc, subs.len())?;
    Ok(Program {
        units: units_of(alloc, bodies.as_slice())?,
        types: tables.types,
        vars: tables.vars,
        subs,
        bodies,
    })
}
