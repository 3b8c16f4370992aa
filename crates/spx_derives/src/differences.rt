// Where the relation of flow and the declared relation differ.
ghost use Rattle.std.specs.Prelude.{◌≡◌, ◌≤◌, ◌<◌, ◌++◌, OnOk, length};
ghost use Rattle.indexmap.specs.IndexMap.{get};
ghost use Rattle.spx_core.specs.Formals.{formals};
ghost use Rattle.spx_derives.specs.Differences.{difference, differences_from, differences_to};
ghost use Rattle.spx_derives.specs.Tables.{pair_in, same_var};

use crate::finding::FlowFinding;
use crate::tables::Tables;
use spx_core::{Sub, VarId};
use spx_rows::Relation;
use spx_text::Place;
use std::alloc::AllocError;

/// What is wrong with a pair that flows, or not, and is declared, or not.
fn difference(
    flows: bool,
    declared: bool,
    place: Place,
    import: VarId,
    export: VarId,
) -> Option<FlowFinding>
    ensures { result ≡ difference flows declared place import export }
{
    match (flows, declared) {
        (true, false) => Some(FlowFinding::Missing(place, import, export)),
        (false, true) => Some(FlowFinding::Unused(place, import, export)),
        _ => None,
    }
}

/// Whether the relation has the pair.
fn has_pair(relation: &Relation, u: usize, w: usize) -> bool
    requires u { u < length relation.now }
    requires w { w < length relation.now }
    ensures { result ≡ pair_in relation.now u w }
{
    relation.has(u, w)
}

/// Adds the differences between the two relations at one export, the variable at `w`.
fn add_differences_to(
    found: &mut Vec<FlowFinding>,
    flows: &Relation,
    declared: &Relation,
    imports: &[VarId],
    w: usize,
    export: VarId,
    place: Place,
) -> Result<(), AllocError>
    requires flows { length imports.now ≤ length flows.now }
    requires declared { length imports.now ≤ length declared.now }
    requires w { w < length imports.now }
    ensures { OnOk result (found.new.items ≡ found.old.items ++ differences_to flows.now declared.now w export place 0 imports.now) }
{
    for (u, import) in imports.iter().enumerate() {
        if let Some(finding) = difference(
            has_pair(flows, u, w),
            has_pair(declared, u, w),
            place,
            *import,
            export,
        ) {
            found.push(finding)?;
        }
    }
    Ok(())
}

/// Adds the differences between the two relations at each formal that is an export.
pub(crate) fn add_differences(
    found: &mut Vec<FlowFinding>,
    flows: &Relation,
    tables: &Tables,
    sub: &Sub,
) -> Result<(), AllocError>
    requires flows { length flows.now ≡ length sub.now.vars }
    requires declared { length tables.now.declared ≡ length sub.now.vars }
    ensures { OnOk result (found.new.items ≡ found.old.items ++ differences_from flows.now tables.now.declared (get same_var tables.now.exports) (formals sub.now) 0 (formals sub.now)) }
{
    let vars = sub.formals();
    for (w, export) in vars.iter().enumerate() {
        if let Some(place) = tables.exports.get().get(export) {
            add_differences_to(found, flows, &tables.declared, vars, w, *export, *place)?;
        }
    }
    Ok(())
}
