// U7: the relation names each export and each pair once, each formal, and nothing else.
ghost use Rattle.std.specs.Prelude.{◌≡◌, IfOk};
ghost use Rattle.std.specs.List.{list_all, list_any};
ghost use Rattle.spx_core.specs.Dependency.{relation};
ghost use Rattle.spx_core.specs.Formals.{formals};
ghost use Rattle.spx_core.specs.Obeyed as rules;

use crate::named::{any_in, insert_new, variables};
use crate::tables::Tables;
use spx_core::{Breach, CoreDerivesItem, Reference, RuleName, Sub, VarId, VarSet, variable_of};
use spx_text::Place;
use spx_types::keeps;
use std::alloc::{AllocError, Global};

/// Whether no variable is named twice.
fn names_once(alloc: Global, names: &[Reference]) -> Result<bool, AllocError>
    ensures { IfOk result (λ once. once ≡ rules.names_once names.now) }
{
    let mut seen = VarSet::new(alloc)?;
    insert_new(&mut seen, names)
}

/// Whether no variable is exported twice.
fn exports_once(alloc: Global, items: &[CoreDerivesItem]) -> Result<bool, AllocError>
    ensures { IfOk result (λ once. once ≡ rules.exports_once items.now) }
{
    let mut seen = VarSet::new(alloc)?;
    for item in items {
        if !insert_new(&mut seen, item.exports.as_slice())? {
            return Ok(false);
        }
    }
    Ok(true)
}

/// Whether one of the exports is named as an import too.
fn imports_an_export(alloc: Global, item: &CoreDerivesItem) -> Result<bool, AllocError>
    ensures { IfOk result (λ found. found ≡ list_any (λ name. rules.is_among name item.now.imports) item.now.exports) }
{
    let imports = variables(alloc, item.imports.as_slice())?;
    Ok(any_in(&imports, item.exports.as_slice()))
}

/// Whether the item has no pair twice, also by `*`.
fn pairs_once(alloc: Global, item: &CoreDerivesItem) -> Result<bool, AllocError>
    ensures { IfOk result (λ once. once ≡ rules.pairs_once item.now) }
{
    Ok(
        names_once(alloc, item.imports.as_slice())?
            && !(item.itself.is_some() && imports_an_export(alloc, item)?),
    )
}

/// Whether none of the items has a pair twice.
fn all_pairs_once(alloc: Global, items: &[CoreDerivesItem]) -> Result<bool, AllocError>
    ensures { IfOk result (λ once. once ≡ list_all rules.pairs_once items.now) }
{
    for item in items {
        if !pairs_once(alloc, item)? {
            return Ok(false);
        }
    }
    Ok(true)
}

/// The imports of an item from which nothing is exported.
fn null_imports(item: &CoreDerivesItem) -> &[Reference]
    ensures { result.now ≡ rules.null_imports item.now }
{
    match item.null {
        Some(_) => item.imports.as_slice(),
        None => &[],
    }
}

/// Whether no variable is named twice as an import from which nothing is exported.
fn unused_once(alloc: Global, items: &[CoreDerivesItem]) -> Result<bool, AllocError>
    ensures { IfOk result (λ once. once ≡ rules.names_once (rules.unused_imports items.now)) }
{
    let mut seen = VarSet::new(alloc)?;
    for item in items {
        if !insert_new(&mut seen, null_imports(item))? {
            return Ok(false);
        }
    }
    Ok(true)
}

fn is_listed(tables: &Tables, var: VarId) -> bool
    ensures { result ≡ rules.is_listed tables.now var }
{
    tables.imports(var) || tables.exports(var)
}

/// Whether each formal is an import or an export.
fn lists_formals(tables: &Tables) -> bool
    ensures { result ≡ list_all (rules.is_listed tables.now) (formals tables.now) }
{
    tables
        .sub()
        .formals()
        .iter()
        .all(|var| is_listed(tables, *var))
}

fn names_formal(tables: &Tables, name: &Reference) -> bool
    ensures { result ≡ rules.names_formal tables.now name.now }
{
    match variable_of(name.root.entity) {
        Some(var) => tables.is_formal(var),
        None => false,
    }
}

fn are_formals(tables: &Tables, names: &[Reference]) -> bool
    ensures { result ≡ list_all (rules.names_formal tables.now) names.now }
{
    names.iter().all(|name| names_formal(tables, name))
}

fn names_formals(tables: &Tables, item: &CoreDerivesItem) -> bool
    ensures { result ≡ rules.names_formals tables.now item.now }
{
    are_formals(tables, item.exports.as_slice()) && are_formals(tables, item.imports.as_slice())
}

/// Whether the relation names nothing but formals.
fn names_only_formals(tables: &Tables) -> bool
    ensures { result ≡ list_all (rules.names_formals tables.now) (relation tables.now) }
{
    tables
        .sub()
        .relation()
        .iter()
        .all(|item| names_formals(tables, item))
}

/// Whether the relation of the subprogram is as it has to be.
pub fn is_right_relation(alloc: Global, tables: &Tables) -> Result<bool, AllocError>
    ensures { IfOk result (λ right. right ≡ rules.is_right_relation tables.now) }
{
    let items = tables.sub().relation();
    Ok(
        exports_once(alloc, items)?
            && all_pairs_once(alloc, items)?
            && unused_once(alloc, items)?
            && lists_formals(tables)
            && names_only_formals(tables),
    )
}

/// The place of the word `derives`, or of the heading where there is none.
fn relation_place(sub: &Sub) -> Place
    ensures { result ≡ rules.place_or sub.now.place sub.now.derives }
{
    match &sub.derives {
        Some(derives) => derives.place,
        None => sub.place,
    }
}

/// A faulty relation is reported at the word `derives`, and a missing one at the heading.
pub fn obey_relation(sub: &Sub, right: bool) -> Result<(), Breach>
    requires { right ≡ rules.is_right_relation sub.now }
    ensures { result ≡ rules.obeyed_relation sub.now }
{
    keeps(RuleName::U7, relation_place(sub), right)
}
