// What a pass ends with: the variables alone, of all points.
ghost use Rattle.std.specs.Prelude.{◌≡◌, ◌↔◌, ◌⊎◌, ℕ, ◌<◌, ◌≤◌, IfOk, length};
ghost use Rattle.spx_text.specs.declared.place.Place.{Place};
ghost use Rattle.spx_rows.specs.Relations.{Has, Holds};
ghost use Rattle.spx_passes.specs.Occurrences.{AreRows, Lists, Relates};

use crate::occurrence::Occurrence;
use spx_rows::{Relation, Row};
use sqlite_items::Items;
use std::alloc::{AllocError, Global};

/// The numbers below `count` in the row.
fn first_numbers(alloc: Global, row: &Row, count: usize) -> Result<Row, AllocError>
    requires count { count ≤ length row.now }
    ensures { IfOk result (λ cut. (length cut ≡ count) × ((b : ℕ) → Has cut b ↔ ((b < count) × Has row.now b))) }
{
    let size = row.size();
    let mut cut = Row::with_size(alloc, count)?;
    for b in 0..count {
        if row.has(b) {
            cut.add(b);
        }
    }
    Ok(cut)
}

/// Adds the pairs of a row with the numbers below `count`.
fn add_first(rows: &Relation, row: usize, count: usize, cut: &mut Relation)
    requires count { count ≤ length rows.now }
    requires size { length cut.old ≡ count }
    requires row { row < count }
    ensures size { length cut.new ≡ count }
    ensures pairs { (a b : ℕ) → Holds cut.new a b ↔ (Holds cut.old a b ⊎ ((row ≡ a) × (b < count) × Holds rows.now row b)) }
{
    for b in 0..count {
        if rows.has(row, b) {
            cut.add(row, b);
        }
    }
}

/// The pairs of numbers below `count`.
pub(crate) fn first_pairs(
    alloc: Global,
    rows: Relation,
    count: usize,
) -> Result<Relation, AllocError>
    requires count { count ≤ length rows }
    ensures { IfOk result (λ cut. (length cut ≡ count) × ((a b : ℕ) → a < count → b < count → Holds cut a b ↔ Holds rows a b)) }
{
    let size = rows.size();
    if size == count {
        return Ok(rows);
    }
    let mut cut = Relation::with_size(alloc, count)?;
    for a in 0..count {
        add_first(&rows, a, count, &mut cut);
    }
    Ok(cut)
}

/// The occurrences with the numbers below `count`.
pub(crate) fn first_occurrences(
    alloc: Global,
    list: Items<Occurrence>,
    size: usize,
    count: usize,
) -> Result<Items<Occurrence>, AllocError>
    requires rows { AreRows size list }
    requires count { count ≤ size }
    ensures rows { IfOk result (AreRows count) }
    ensures related { IfOk result (λ cut. (p : Place) (b : ℕ) → b < count → Relates cut p b ↔ Relates list p b) }
    ensures listed { IfOk result (λ cut. (p : Place) → Lists cut p ↔ Lists list p) }
{
    if size == count {
        return Ok(list);
    }
    let mut cut = Items::new(alloc);
    for occurrence in list.as_slice() {
        let vars = first_numbers(alloc, &occurrence.vars, count)?;
        cut.push(Occurrence {
            place: occurrence.place,
            vars,
        })?;
    }
    Ok(cut)
}
