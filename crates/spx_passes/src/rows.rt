// Relations between points: what stands for arms, for exits and for the ways out of a loop.
ghost use Rattle.std.specs.Prelude.{◌≡◌, ◌↔◌, ◌⊎◌, ℕ, ◌<◌, ◌≤◌, ◌+◌, ◌==◌, Bool, true, All, IfOk, IsTrue, OnOk, length};
ghost use Rattle.std.specs.List.{IsDistinct};
ghost use Rattle.spx_core.specs.Mirror.VarSets.{holds};
ghost use Rattle.spx_rows.specs.Relations.{Holds, Then};
ghost use Rattle.spx_passes.specs.Points.{Ends, IsVariable, Out, Places, Point, Takes, is_testing, on_variables, reached, size_of};
ghost use Rattle.spx_passes.specs.Occurrences.{AreRows};
ghost use Rattle.spx_passes.specs.Steps.{Beside, Spreads};

use crate::frame::Frame;
use crate::occurrence::Occurrence;
use crate::targets::{Targets, target_positions};
use spx_rows::{Relation, Row};
use spx_text::Place;
use sqlite_items::Items;
use std::alloc::{AllocError, Global};

/// One relation and then the other.
pub(crate) fn composed(
    alloc: Global,
    first: &Relation,
    second: &Relation,
) -> Result<Relation, AllocError>
    requires { length first.now ≡ length second.now }
    ensures { IfOk result (λ both. (length both ≡ length second.now) × ((a b : ℕ) → Holds both a b ↔ Then (Holds first.now) (Holds second.now) a b)) }
{
    let mut both = Relation::with_size(alloc, second.size())?;
    both.compose_into(first, second);
    Ok(both)
}

/// The rows of numbers from `from` on become those of the numbers from `to` on, and the others are empty.
pub(crate) fn moved(
    alloc: Global,
    rows: &Relation,
    from: usize,
    to: usize,
    count: usize,
) -> Result<Relation, AllocError>
    requires from { from + count ≤ length rows.now }
    requires to { to + count ≤ length rows.now }
    ensures { IfOk result (λ r. (length r ≡ length rows.now) × ((a b : ℕ) → Holds r a b ↔ ((k : ℕ) × (k < count) × (from + k ≡ a) × Holds rows.now (to + k) b))) }
{
    let mut moved = Relation::with_size(alloc, rows.size())?;
    for k in 0..count {
        moved.add_row_of(from + k, rows, to + k);
    }
    Ok(moved)
}

/// The rows of variables alone.
pub(crate) fn of_variables(
    alloc: Global,
    frame: &Frame,
    rows: &Relation,
) -> Result<Relation, AllocError>
    requires once { IsDistinct ◌==◌ frame.now.vars }
    requires size { length rows.now ≡ size_of frame.now }
    ensures size { IfOk result (λ r. length r ≡ size_of frame.now) }
    ensures pairs { IfOk result (Takes frame.now (λ x z. IsVariable x × (x ≡ z)) rows.now) }
{
    let kept = moved(alloc, rows, 0, 0, frame.vars.len())?;
    Ok(kept)
}

/// The rows of variables alone, if any.
fn at_head(
    alloc: Global,
    frame: &Frame,
    stays: bool,
    rows: &Relation,
) -> Result<Relation, AllocError>
    requires once { IsDistinct ◌==◌ frame.now.vars }
    requires size { length rows.now ≡ size_of frame.now }
    ensures size { IfOk result (λ r. length r ≡ size_of frame.now) }
    ensures pairs { IfOk result (Takes frame.now (λ x z. IsTrue stays × IsVariable x × (x ≡ z)) rows.now) }
{
    if stays {
        let kept = of_variables(alloc, frame, rows)?;
        Ok(kept)
    } else {
        let none = Relation::with_size(alloc, rows.size())?;
        Ok(none)
    }
}

/// The positions of the targets.
fn target_places(alloc: Global, frame: &Frame, targets: &Targets) -> Result<Vec<usize>, AllocError>
    requires { IsDistinct ◌==◌ frame.now.vars }
    ensures within { IfOk result (λ to. All (λ k. k < size_of frame.now) to.items) }
    ensures exact { IfOk result (λ to. Places frame.now to.items (on_variables (λ v. holds targets.now.keys v))) }
{
    let to = target_positions(alloc, &frame.vars, targets)?;
    Ok(to)
}

/// Where an arm that is an exit ends: a variable has the row that it has where the loop is left.
pub(crate) fn where_left(
    alloc: Global,
    frame: &Frame,
    rows: &Relation,
) -> Result<Relation, AllocError>
    requires once { IsDistinct ◌==◌ frame.now.vars }
    requires exits { IsTrue frame.now.has_exits }
    requires size { length rows.now ≡ size_of frame.now }
    ensures size { IfOk result (λ r. length r ≡ size_of frame.now) }
    ensures pairs { IfOk result (Takes frame.now (λ x z. Ends true x z) rows.now) }
{
    let count = frame.vars.len();
    let left = moved(alloc, rows, 0, count, count)?;
    Ok(left)
}

/// The other way round: a variable where the loop is left has its row at the end of the arm.
pub(crate) fn as_left(alloc: Global, frame: &Frame, rows: &Relation) -> Result<Relation, AllocError>
    requires once { IsDistinct ◌==◌ frame.now.vars }
    requires exits { IsTrue frame.now.has_exits }
    requires size { length rows.now ≡ size_of frame.now }
    ensures size { IfOk result (λ r. length r ≡ size_of frame.now) }
    ensures pairs { IfOk result (Takes frame.now (λ x z. Ends true z x) rows.now) }
{
    let count = frame.vars.len();
    let left = moved(alloc, rows, count, 0, count)?;
    Ok(left)
}

/// The position of the conditions of exits, as the only one.
fn testing(alloc: Global, frame: &Frame, size: usize) -> Result<Vec<usize>, AllocError>
    requires exits { IsTrue frame.now.has_exits }
    requires once { IsDistinct ◌==◌ frame.now.vars }
    requires size { size ≡ size_of frame.now }
    requires limit { size ≤ 65536 }
    ensures within { IfOk result (λ to. All (λ k. k < size_of frame.now) to.items) }
    ensures exact { IfOk result (λ to. Places frame.now to.items is_testing) }
{
    let mut only = Vec::new(alloc);
    let count = frame.vars.len();
    only.push(count + count)?;
    Ok(only)
}

/// What the condition of an arm comes to: the targets, or, at an exit, the conditions of exits.
pub(crate) fn reached(
    alloc: Global,
    frame: &Frame,
    is_exit: bool,
    targets: &Targets,
    size: usize,
) -> Result<Vec<usize>, AllocError>
    requires exits { is_exit ≡ true → frame.now.has_exits ≡ true }
    requires once { IsDistinct ◌==◌ frame.now.vars }
    requires size { size ≡ size_of frame.now }
    requires limit { size ≤ 65536 }
    ensures within { IfOk result (λ to. All (λ k. k < size_of frame.now) to.items) }
    ensures exact { IfOk result (λ to. Places frame.now to.items (reached is_exit (λ v. holds targets.now.keys v))) }
{
    if is_exit {
        let only = testing(alloc, frame, size)?;
        Ok(only)
    } else {
        let to = target_places(alloc, frame, targets)?;
        Ok(to)
    }
}

/// Lists an occurrence with the union of the rows at some positions, and adds this union to the rows at others.
pub(crate) fn spread(
    alloc: Global,
    frame: &Frame,
    place: Place,
    from: &[usize],
    to: &[usize],
    source: &Relation,
    rows: &mut Relation,
    list: &mut Items<Occurrence>,
) -> Result<(), AllocError>
    requires beside { Beside frame.now source.now rows.old list.old }
    requires from { All (λ k. k < size_of frame.now) from.now }
    requires to { All (λ k. k < size_of frame.now) to.now }
    ensures { OnOk result ((f g : Point → Bool) → Places frame.now from.now f → Places frame.now to.now g → Spreads frame.now f g place source.now rows.old rows.new list.old list.new) }
{
    let vars = source.union_of(alloc, from)?;
    rows.add_rows_to(to, source, from);
    list.push(Occurrence { place, vars })?;
    Ok(())
}

/// The rows where a loop is left backward: what stands after it for a variable at its head, if it is left there at all, and for a
/// variable at an exit; from the conditions of exits leads on what leads on from all targets.
pub(crate) fn ways_out(
    alloc: Global,
    frame: &Frame,
    stays: bool,
    targets: &Targets,
    rows: &Relation,
) -> Result<Relation, AllocError>
    requires once { IsDistinct ◌==◌ frame.now.vars }
    requires size { length rows.now ≡ size_of frame.now }
    ensures size { IfOk result (λ r. length r ≡ size_of frame.now) }
    ensures pairs { IfOk result (Takes frame.now (λ x z. Out frame.now.has_exits stays (λ v. holds targets.now.keys v) x z) rows.now) }
{
    let mut last = at_head(alloc, frame, stays, rows)?;
    if !frame.has_exits {
        return Ok(last);
    }
    let left = as_left(alloc, frame, rows)?;
    last.union_with(&left);
    let from = testing(alloc, frame, rows.size())?;
    let to = target_places(alloc, frame, targets)?;
    last.add_rows_to(from.as_slice(), rows, to.as_slice());
    Ok(last)
}

/// The other way round: what has come to a variable where a loop is left.
pub(crate) fn ways_in(
    alloc: Global,
    frame: &Frame,
    stays: bool,
    targets: &Targets,
    rows: &Relation,
) -> Result<Relation, AllocError>
    requires once { IsDistinct ◌==◌ frame.now.vars }
    requires size { length rows.now ≡ size_of frame.now }
    ensures size { IfOk result (λ r. length r ≡ size_of frame.now) }
    ensures pairs { IfOk result (Takes frame.now (λ x z. Out frame.now.has_exits stays (λ v. holds targets.now.keys v) z x) rows.now) }
{
    let mut last = at_head(alloc, frame, stays, rows)?;
    if !frame.has_exits {
        return Ok(last);
    }
    let left = where_left(alloc, frame, rows)?;
    last.union_with(&left);
    let from = testing(alloc, frame, rows.size())?;
    let to = target_places(alloc, frame, targets)?;
    last.add_rows_to(to.as_slice(), rows, from.as_slice());
    Ok(last)
}

/// Past a loop the rows of variables become those of `head`; the others are again those of what is around the loop.
pub(crate) fn replace(frame: &Frame, head: &Relation, rows: &mut Relation)
    requires head { length head.now ≡ length rows.old }
    requires size { length rows.old ≡ size_of frame.now }
    ensures size { length rows.new ≡ length rows.old }
    ensures pairs { (a b : ℕ) → Holds rows.new a b ↔ (((a < length frame.now.vars) × Holds head.now a b) ⊎ ((length frame.now.vars ≤ a) × Holds rows.old a b)) }
{
    for k in 0..frame.vars.len() {
        rows.clear_row(k);
        rows.add_row_of(k, head, k);
    }
}
