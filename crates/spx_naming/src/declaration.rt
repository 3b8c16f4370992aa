// Formals and declarations: each sees those before it, and not itself.
ghost use Rattle.std.specs.Prelude.{◌≡◌, ◌++◌, IfOk, length, map, option_map};
ghost use Rattle.spx_core.specs.declared.entity.Meaning.TheVariants as meaning;
ghost use Rattle.spx_core.specs.ResolvedExpressions.{in_declaration, resolved_reference, resolved_static};
ghost use Rattle.spx_core.specs.DeclaredNames.{around_names, declaring_all, defining_all};
ghost use Rattle.spx_core.specs.ResolvedDeclarations.{declared_by, declared_by_decls, declared_by_params, resolved_decl, resolved_decls, resolved_param, resolved_params, resolved_type, rows_by, rows_by_decls, variables_by, variables_by_decls, variables_of};
ghost use Rattle.spx_core.specs.Resolved.{var_of};
ghost use Rattle.spx_scope.specs.Seen.{seen};
ghost use Rattle.spx_naming.specs.Before.{before_in};

use crate::composites::{resolve_array, resolve_record};
use crate::meaning::{local_kind, mode_of, object_of};
use crate::names::declare_all;
use crate::parts::{resolve_initial, resolve_type_name};
use crate::scene::Scene;
use crate::tables::{Tables, add_variables};
use crate::types::{resolve_constants, resolve_enumeration, resolve_integer, resolve_subtype};
use spx_core::{CoreDecl, CoreParam, Defining, Meaning, Object, TypeRow, Var, VarKind};
use spx_scope::{Region, Scope};
use spx_tree::{Decl, Expr, Identifier, Name, Param, TypeDef};
use sqlite_items::{Boxed, Items};
use std::alloc::{AllocError, Global};

/// Declares variables, one after another.
fn declare_variables(
    alloc: Global,
    region: &mut Region,
    vars: &mut Items<Var>,
    outer: &Scope<'_>,
    object: Object,
    names: &[Identifier],
) -> Result<Items<Defining>, AllocError>
    ensures { IfOk result (λ ds. (ds ≡ defining_all region.old (meaning.Variables object) (length vars.old) names.now) × (region.new ≡ declaring_all region.old ds) × (vars.new ≡ vars.old ++ map var_of ds)) }
{
    let first = vars.as_slice().len();
    let meaning = Meaning::Variables(object);
    let defined = declare_all(alloc, region, outer, meaning, first, names)?;
    add_variables(alloc, vars, defined.as_slice())?;
    Ok(defined)
}

fn resolve_param(
    alloc: Global,
    region: &mut Region,
    vars: &mut Items<Var>,
    outer: &Scope<'_>,
    param: &Param,
) -> Result<CoreParam, AllocError>
    ensures { IfOk result (λ p. (p ≡ resolved_param (seen outer.now) region.old (length vars.old) param.now) × (region.new ≡ declaring_all region.old p.names) × (vars.new ≡ vars.old ++ map var_of p.names)) }
{
    let names = param.names.as_slice();
    let type_name = resolve_type_name(alloc, region, outer, names, &param.type_name)?;
    let object = object_of(VarKind::Formal(mode_of(param.mode)), type_name.get());
    let names = declare_variables(alloc, region, vars, outer, object, names)?;
    Ok(CoreParam {
        names,
        mode: param.mode,
        type_name: type_name.into_inner(),
    })
}

/// Parameters.
#[tactic(auto, using(std::proofs::lemmas::Grind::common_steps, crate::proofs::Declared::declaring_append))]
pub fn resolve_params(
    alloc: Global,
    region: &mut Region,
    vars: &mut Items<Var>,
    outer: &Scope<'_>,
    params: &[Param],
) -> Result<Items<CoreParam>, AllocError>
    ensures { IfOk result (λ ps. (ps ≡ resolved_params (seen outer.now) region.old (length vars.old) params.now) × (region.new ≡ declaring_all region.old (declared_by_params ps)) × (vars.new ≡ vars.old ++ map var_of (declared_by_params ps))) }
{
    let mut resolved = Items::new(alloc);
    for param in params {
        resolved.push(resolve_param(alloc, region, vars, outer, param)?)?;
    }
    Ok(resolved)
}

fn resolve_variables(
    alloc: Global,
    types: &[TypeRow],
    region: &mut Region,
    vars: &mut Items<Var>,
    outer: &Scope<'_>,
    names: &[Identifier],
    type_name: &Name,
    value: &Option<Boxed<Expr>>,
) -> Result<CoreDecl, AllocError>
    ensures { IfOk result (λ d. (d ≡ variables_of region.old (length vars.old) names.now (resolved_reference (around_names (seen outer.now) region.old names.now) type_name.now) (option_map (resolved_static (in_declaration types.now) (around_names (seen outer.now) region.old names.now)) value.now)) × (region.new ≡ declaring_all region.old (declared_by d)) × (vars.new ≡ vars.old ++ map var_of (variables_by d))) }
{
    let type_name = resolve_type_name(alloc, region, outer, names, type_name)?;
    let scene = Scene::in_declaration(types);
    let value = resolve_initial(alloc, &scene, region, outer, names, value)?;
    let object = object_of(local_kind(&value), type_name.get());
    let names = declare_variables(alloc, region, vars, outer, object, names)?;
    let names = Boxed::new(alloc, names)?;
    Ok(CoreDecl::Variables(names, type_name, value))
}

/// The declaration of a type.
fn resolve_type(
    alloc: Global,
    region: &mut Region,
    tables: &mut Tables,
    outer: &Scope<'_>,
    name: &Identifier,
    definition: &TypeDef,
) -> Result<CoreDecl, AllocError>
    ensures decl { IfOk result (λ d. d ≡ resolved_type (seen outer.now) region.old (before_in tables.old) name.now definition.now) }
    ensures region { IfOk result (λ d. region.new ≡ declaring_all region.old (declared_by d)) }
    ensures vars { IfOk result (λ d. tables.new.vars ≡ tables.old.vars ++ map var_of (variables_by d)) }
    ensures types { IfOk result (λ d. tables.new.types ≡ tables.old.types ++ rows_by d) }
{
    let types = &mut tables.types;
    match definition {
        TypeDef::Integer(range) => resolve_integer(alloc, region, types, outer, name, range),
        TypeDef::Enumeration(place, literals) => {
            let literals = literals.as_slice();
            resolve_enumeration(alloc, region, types, outer, name, *place, literals)
        }
        TypeDef::Array(place, index, element) => {
            resolve_array(alloc, region, types, outer, name, *place, index, element)
        }
        TypeDef::Record(fields, end) => {
            let fields = fields.as_slice();
            resolve_record(alloc, region, types, outer, name, fields, *end)
        }
    }
}

fn resolve_decl(
    alloc: Global,
    region: &mut Region,
    tables: &mut Tables,
    outer: &Scope<'_>,
    decl: &Decl,
) -> Result<CoreDecl, AllocError>
    ensures decl { IfOk result (λ d. d ≡ resolved_decl (seen outer.now) region.old (before_in tables.old) decl.now) }
    ensures region { IfOk result (λ d. region.new ≡ declaring_all region.old (declared_by d)) }
    ensures vars { IfOk result (λ d. tables.new.vars ≡ tables.old.vars ++ map var_of (variables_by d)) }
    ensures types { IfOk result (λ d. tables.new.types ≡ tables.old.types ++ rows_by d) }
{
    match decl {
        Decl::Variables(names, type_name, value) => {
            let types = tables.types.as_slice();
            let vars = &mut tables.vars;
            let names = names.get().as_slice();
            let type_name = type_name.get();
            resolve_variables(alloc, types, region, vars, outer, names, type_name, value)
        }
        Decl::Constants(names, type_name, value) => {
            let types = tables.types.as_slice();
            let names = names.get().as_slice();
            resolve_constants(alloc, types, region, outer, names, type_name, value.get())
        }
        Decl::FullType(name, definition) => {
            resolve_type(alloc, region, tables, outer, name.get(), definition.get())
        }
        Decl::Subtype(name, parent, range) => {
            let types = &mut tables.types;
            resolve_subtype(alloc, region, types, outer, name.get(), parent.get(), range)
        }
    }
}

/// The declarations of a body.
pub fn resolve_decls(
    alloc: Global,
    region: &mut Region,
    tables: &mut Tables,
    outer: &Scope<'_>,
    decls: &[Decl],
) -> Result<Items<CoreDecl>, AllocError>
    ensures decls { IfOk result (λ ds. ds ≡ resolved_decls (seen outer.now) region.old (before_in tables.old) decls.now) }
    ensures region { IfOk result (λ ds. region.new ≡ declaring_all region.old (declared_by_decls ds)) }
    ensures vars { IfOk result (λ ds. tables.new.vars ≡ tables.old.vars ++ map var_of (variables_by_decls ds)) }
    ensures types { IfOk result (λ ds. tables.new.types ≡ tables.old.types ++ rows_by_decls ds) }
{
    let mut resolved = Items::new(alloc);
    for decl in decls {
        resolved.push(resolve_decl(alloc, region, tables, outer, decl)?)?;
    }
    Ok(resolved)
}
