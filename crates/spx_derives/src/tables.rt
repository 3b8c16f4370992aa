// Tables of a dependency relation, in which pairs and exports are looked up.
ghost use Rattle.std.specs.Prelude.{◌≡◌, ◌≤◌, ◌&&◌, ◌==◌, ℕ, Some, IfOk, OnOk, is_some, true, ◌↔◌, length, slice_get};
ghost use Rattle.std.specs.Option.{option_or};
ghost use Rattle.indexmap.specs.IndexMap.{get};
ghost use Rattle.spx_core.specs.declared.entity.VarId.{VarId};
ghost use Rattle.spx_core.specs.Mirror.DerivesItems.{has_pair};
ghost use Rattle.spx_core.specs.Uses.{mentions};
ghost use Rattle.spx_core.specs.Mirror.VarSets.{place_in_set};
ghost use Rattle.std.specs.List.{IsDistinct, list_any};
ghost use Rattle.spx_rows.specs.Relations.{Has};
ghost use Rattle.spx_derives.specs.Tables.{AreTablesOf, Declares, first_place, is_pair_to, pair_in, place_in_names, place_of_name, same_var};

use indexmap::IndexMap;
use spx_core::{CoreDerivesItem, Reference, Sub, VarId, VarSet, variable_of};
use spx_rows::{Relation, Row};
use spx_text::Place;
use sqlite_items::Boxed;
use std::alloc::{AllocError, Global};

/// The dependency relation of a subprogram. Variables stand by their position in the subprogram's list.
#[derive(Drop)]
pub(crate) struct Tables {
    /// The pairs of an import and an export.
    pub declared: Relation,
    /// Each export with its first place.
    pub exports: Boxed<IndexMap<VarId, Place>>,
    /// The exports once more, by position.
    pub exported: Row,
}

/// Adds the pair, if both are among the variables.
fn add_pair(declared: &mut Relation, vars: &VarSet, import: VarId, export: VarId)
    requires { length declared.old ≡ length vars.now }
    ensures size { length declared.new ≡ length declared.old }
    ensures pairs { Declares vars.now (λ x y. (import.0 == x.0) && (export.0 == y.0)) declared.old declared.new }
{
    let Some(u) = vars.position(import) else {
        return;
    };
    let Some(w) = vars.position(export) else {
        return;
    };
    declared.add(u, w);
}

/// Adds the pairs of each import with one export.
fn add_imports(declared: &mut Relation, vars: &VarSet, imports: &[Reference], export: VarId)
    requires { length declared.old ≡ length vars.now }
    ensures size { length declared.new ≡ length declared.old }
    ensures pairs { Declares vars.now (λ x y. (export.0 == y.0) && mentions x imports.now) declared.old declared.new }
{
    for name in imports {
        if let Some(import) = variable_of(name.root.entity) {
            add_pair(declared, vars, import, export);
        }
    }
}

/// Adds the pairs of an item with one of its exports.
fn add_pairs_to(declared: &mut Relation, vars: &VarSet, item: &CoreDerivesItem, export: VarId)
    requires { length declared.old ≡ length vars.now }
    ensures size { length declared.new ≡ length declared.old }
    ensures pairs { Declares vars.now (is_pair_to export item.now) declared.old declared.new }
{
    if item.itself.is_some() {
        add_pair(declared, vars, export, export);
    }
    add_imports(declared, vars, item.imports.as_slice(), export);
}

/// Adds the pairs of an item.
fn add_item(declared: &mut Relation, vars: &VarSet, item: &CoreDerivesItem)
    requires { length declared.old ≡ length vars.now }
    ensures size { length declared.new ≡ length declared.old }
    ensures pairs { Declares vars.now (λ x y. has_pair x y item.now) declared.old declared.new }
{
    for name in item.exports.as_slice() {
        if let Some(export) = variable_of(name.root.entity) {
            add_pairs_to(declared, vars, item, export);
        }
    }
}

/// The pairs that the items declare, by the positions of the variables.
fn declared_pairs(
    alloc: Global,
    vars: &VarSet,
    size: usize,
    items: &[CoreDerivesItem],
) -> Result<Relation, AllocError>
    requires size { size ≡ length vars.now }
    requires limit { size ≤ 65536 }
    ensures size { IfOk result (λ declared. length declared ≡ size) }
    ensures pairs { IfOk result (λ declared. (u w : ℕ) (x y : VarId) → place_in_set vars.now x ≡ Some u → place_in_set vars.now y ≡ Some w → pair_in declared u w ≡ list_any (has_pair x y) items.now) }
{
    let mut declared = Relation::with_size(alloc, size)?;
    for item in items {
        add_item(&mut declared, vars, item);
    }
    Ok(declared)
}

/// Adds the export that a name denotes, unless it is there.
fn add_export(places: &mut IndexMap<VarId, Place>, name: &Reference) -> Result<(), AllocError>
    ensures { OnOk result ((v : VarId) → get same_var places.new v ≡ option_or (get same_var places.old v) (place_of_name v name.now)) }
{
    if let Some(export) = variable_of(name.root.entity) {
        places.entry(export)?.or_insert(name.root.name.place);
    }
    Ok(())
}

/// Adds the exports of an item.
fn add_exports(places: &mut IndexMap<VarId, Place>, names: &[Reference]) -> Result<(), AllocError>
    ensures { OnOk result ((v : VarId) → get same_var places.new v ≡ option_or (get same_var places.old v) (place_in_names v names.now)) }
{
    for name in names {
        add_export(places, name)?;
    }
    Ok(())
}

/// Each export of the items, with its first place.
fn export_places(
    alloc: Global,
    items: &[CoreDerivesItem],
) -> Result<Boxed<IndexMap<VarId, Place>>, AllocError>
    ensures { IfOk result (λ places. (v : VarId) → get same_var places v ≡ first_place v items.now) }
{
    let mut places = IndexMap::new(alloc);
    for item in items {
        add_exports(&mut places, item.exports.as_slice())?;
    }
    Boxed::new(alloc, places)
}

/// The positions of the exports among the variables.
fn export_row(
    alloc: Global,
    exports: &IndexMap<VarId, Place>,
    vars: &[VarId],
    size: usize,
) -> Result<Row, AllocError>
    requires size { size ≡ length vars.now }
    requires limit { size ≤ 65536 }
    ensures size { IfOk result (λ row. length row ≡ size) }
    ensures row { IfOk result (λ row. (w : ℕ) → Has row w ↔ ((y : VarId) × (slice_get vars.now w ≡ Some y) × (is_some (get same_var exports.now y) ≡ true))) }
{
    let mut row = Row::with_size(alloc, size)?;
    for (w, var) in vars.iter().enumerate() {
        if exports.contains_key(var) {
            row.add(w);
        }
    }
    Ok(row)
}

impl Tables {
    /// The tables of a subprogram.
    pub fn of(alloc: Global, sub: &Sub, size: usize) -> Result<Tables, AllocError>
        requires once { IsDistinct (λ (v : VarId) (w : VarId). w.0 == v.0) sub.now.vars }
        requires size { size ≡ length sub.now.vars }
        requires limit { size ≤ 65536 }
        ensures { IfOk result (AreTablesOf sub.now) }
    {
        let vars = VarSet::of(alloc, sub.vars.as_slice())?;
        let declared = declared_pairs(alloc, &vars, size, sub.relation())?;
        let exports = export_places(alloc, sub.relation())?;
        let exported = export_row(alloc, exports.get(), sub.vars.as_slice(), size)?;
        Ok(Tables {
            declared,
            exports,
            exported,
        })
    }
}
