// Occurrences that reach no export.
ghost use Rattle.std.specs.Prelude.{◌≡◌, ◌++◌, ◌&&◌, IfOk, OnOk, map, not, length};
ghost use Rattle.std.specs.List.{list_any};
ghost use Rattle.indexmap.specs.IndexSet.{contains, IsUnique};
ghost use Rattle.spx_text.specs.declared.place.Place.{Place};
ghost use Rattle.spx_passes.specs.Occurrences.{AreRows};
ghost use Rattle.spx_derives.specs.declared.finding.FlowFinding.TheVariants.{Ineffective};
ghost use Rattle.spx_derives.specs.Tables.{is_effective, is_other, meets, same_place, stands_at};

use crate::finding::FlowFinding;
use indexmap::IndexSet;
use spx_flow::Occurrence;
use spx_rows::Row;
use spx_text::Place;
use sqlite_items::Boxed;
use std::alloc::{AllocError, Global};

/// Whether the occurrence reaches an export.
fn reaches(occurrence: &Occurrence, exports: &Row) -> bool
    requires { length occurrence.now.vars ≡ length exports.now }
    ensures { result ≡ meets occurrence.now.vars exports.now }
{
    occurrence.vars.meets(exports)
}

/// The places of the occurrences that reach an export.
fn effective_places(
    alloc: Global,
    occurrences: &[Occurrence],
    exports: &Row,
) -> Result<Boxed<IndexSet<Place>>, AllocError>
    requires { AreRows (length exports.now) occurrences.now }
    ensures { IfOk result (λ places. (p : Place) → contains same_place places p ≡ list_any (is_effective exports.now p) occurrences.now) }
{
    let mut places = IndexSet::new(alloc);
    for occurrence in occurrences {
        if reaches(occurrence, exports) {
            places.insert(occurrence.place)?;
        }
    }
    Boxed::new(alloc, places)
}

/// The places of occurrences that are not among these.
fn other_places(
    alloc: Global,
    occurrences: &[Occurrence],
    effective: &IndexSet<Place>,
) -> Result<Boxed<IndexSet<Place>>, AllocError>
    ensures places { IfOk result (λ places. (p : Place) → contains same_place places p ≡ list_any (is_other effective.now.keys p) occurrences.now) }
    ensures once { IfOk result (IsUnique same_place) }
{
    let mut places = IndexSet::new(alloc);
    for occurrence in occurrences {
        if !effective.contains(&occurrence.place) {
            places.insert(occurrence.place)?;
        }
    }
    Boxed::new(alloc, places)
}

/// The places at which no occurrence reaches an export.
pub(crate) fn ineffective_places(
    alloc: Global,
    occurrences: &[Occurrence],
    exports: &Row,
) -> Result<Boxed<IndexSet<Place>>, AllocError>
    requires { AreRows (length exports.now) occurrences.now }
    ensures places { IfOk result (λ places. (p : Place) → contains same_place places p ≡ (list_any (stands_at p) occurrences.now && not (list_any (is_effective exports.now p) occurrences.now))) }
    ensures once { IfOk result (IsUnique same_place) }
{
    let effective = effective_places(alloc, occurrences, exports)?;
    let places = other_places(alloc, occurrences, effective.get())?;
    Ok(places)
}

/// Adds a finding at each of these places.
pub(crate) fn add_ineffective(
    found: &mut Vec<FlowFinding>,
    places: &IndexSet<Place>,
) -> Result<(), AllocError>
    ensures { OnOk result (found.new.items ≡ found.old.items ++ map Ineffective places.now.keys) }
{
    for place in places.iter() {
        found.push(FlowFinding::Ineffective(*place))?;
    }
    Ok(())
}
