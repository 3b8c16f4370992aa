// One pass over statements, forward or backward.
ghost use Rattle.std.specs.Prelude.{◌≡◌, ◌==◌, ◌↔◌, ◌≤◌, ◌++◌, ℕ, [], All, IfOk, OnOk, length, map, true};
ghost use Rattle.spx_core.specs.FlowRules.{most_variables};
ghost use Rattle.std.specs.List.{IsDistinct};
ghost use Rattle.spx_text.specs.declared.place.Place.{Place};
ghost use Rattle.spx_core.specs.declared.entity.VarId.{VarId};
ghost use Rattle.spx_core.specs.Marks.{Lambda};
ghost use Rattle.spx_core.specs.Mirror.VarSets.{holds};
ghost use Rattle.spx_lower.specs.Meaning.{arm_of, effect_in, effect_of, ended, loop_over};
ghost use Rattle.spx_passes.specs.Branches.{ArmPass, Arms, Done};
ghost use Rattle.spx_passes.specs.Directions.{ArmBegins, ArmEnds, Steps, Tests, Turned};
ghost use Rattle.spx_passes.specs.Positions.{Covers, CoversArm, Stands};
ghost use Rattle.spx_passes.specs.Points.{size_of};
ghost use Rattle.spx_passes.specs.Occurrences.{AreRows, LeadOn, Relates};
ghost use Rattle.spx_passes.specs.Steps.{Beside, Goes, StepsBack, StepsForward};

use crate::assign::over_assignment;
use crate::cut::{first_occurrences, first_pairs};
use crate::direction::Direction;
use crate::exits::have_exits;
use crate::frame::{Frame, size_of};
use crate::loops::{close_loop, turn_start};
use crate::occurrence::{BackwardFlow, Occurrence};
use crate::positions::positions_of_both;
use crate::rows::{as_left, reached, spread, where_left};
use crate::targets::{Targets, add_all_targets, all_targets};
use crate::turns::Turn;
use spx_lower::{Arm, Head, Item, Read};
use spx_rows::Relation;
use spx_text::Place;
use sqlite_items::{Boxed, Items};
use std::alloc::{AllocError, Global};

/// The rows with which an arm begins: backward, those at its end.
fn arm_start(
    alloc: Global,
    frame: &Frame,
    direction: Direction,
    is_exit: bool,
    rows: &Relation,
) -> Result<Relation, AllocError>
    requires once { IsDistinct ◌==◌ frame.now.vars }
    requires exits { is_exit ≡ true → frame.now.has_exits ≡ true }
    requires size { length rows.now ≡ size_of frame.now }
    ensures size { IfOk result (λ start. length start ≡ size_of frame.now) }
    ensures begins { IfOk result (ArmBegins direction frame.now is_exit rows.now) }
{
    match direction {
        Direction::Forward => {
            let start = rows.copy(alloc)?;
            Ok(start)
        }
        Direction::Backward => {
            if is_exit {
                let start = where_left(alloc, frame, rows)?;
                Ok(start)
            } else {
                let start = rows.copy(alloc)?;
                Ok(start)
            }
        }
    }
}

/// The rows with which an arm ends: forward, those where it goes on or the loop is left.
fn arm_end(
    alloc: Global,
    frame: &Frame,
    direction: Direction,
    is_exit: bool,
    rows: Relation,
) -> Result<Relation, AllocError>
    requires once { IsDistinct ◌==◌ frame.now.vars }
    requires exits { is_exit ≡ true → frame.now.has_exits ≡ true }
    requires size { length rows ≡ size_of frame.now }
    ensures size { IfOk result (λ end. length end ≡ size_of frame.now) }
    ensures ends { IfOk result (ArmEnds direction frame.now is_exit rows) }
{
    match direction {
        Direction::Forward => {
            if is_exit {
                let end = as_left(alloc, frame, &rows)?;
                Ok(end)
            } else {
                Ok(rows)
            }
        }
        Direction::Backward => Ok(rows),
    }
}

/// Goes over a test: what it reads and what is read before each test come to all targets, or, at an exit, to the conditions of exits.
fn over_test(
    alloc: Global,
    frame: &Frame,
    direction: Direction,
    is_exit: bool,
    reads: &[Read],
    selector: &[Read],
    place: Place,
    targets: &Targets,
    rows: &Relation,
    ends: &mut Relation,
    list: &mut Items<Occurrence>,
) -> Result<(), AllocError>
    requires exits { is_exit ≡ true → frame.now.has_exits ≡ true }
    requires beside { Beside frame.now rows.now ends.old list.old }
    ensures { OnOk result (Tests direction frame.now is_exit (λ v. holds targets.now.keys v) (reads.now ++ selector.now) place rows.now ends.old ends.new list.old list.new) }
{
    let from = positions_of_both(alloc, frame, reads, selector)?;
    let to = reached(alloc, frame, is_exit, targets, rows.size())?;
    let from = from.as_slice();
    let to = to.as_slice();
    match direction {
        Direction::Forward => spread(alloc, frame, place, from, to, rows, ends, list),
        Direction::Backward => spread(alloc, frame, place, to, from, rows, ends, list),
    }
}

/// Goes over an item.
#[cycle(over)]
fn over(
    alloc: Global,
    frame: &Frame,
    direction: Direction,
    item: &Item,
    rows: &mut Relation,
    list: &mut Items<Occurrence>,
) -> Result<(), AllocError>
    requires { Goes frame.now (effect_of item.now) rows.old list.old }
    ensures { OnOk result (Steps direction frame.now (effect_of item.now) rows.old rows.new list.old list.new) }
{
    match item {
        Item::Nothing => Ok(()),
        Item::Assign(assignment) => {
            over_assignment(alloc, frame, direction, assignment.get(), rows, list)
        }
        Item::Observe(_) => Ok(()),
        Item::Branch(selector, arms, last, otherwise) => {
            let mut set = Targets::new(alloc)?;
            let selector = selector.get().as_slice();
            let otherwise = otherwise.get().as_slice();
            let mut ends = over_otherwise(
                alloc, frame, direction, otherwise, selector, last, rows, &mut set, list,
            )?;
            let arms = arms.get().as_slice();
            over_arms(
                alloc, frame, direction, arms, selector, rows, &mut ends, &mut set, list,
            )?;
            *rows = ends;
            Ok(())
        }
        Item::Loop(head, body) => {
            over_loop(
                alloc,
                frame,
                direction,
                body.as_slice(),
                head.get(),
                rows,
                list,
            )
        }
    }
}

/// Goes over what is done where no test is true; `targets` becomes what this sets.
#[cycle(over)]
fn over_otherwise(
    alloc: Global,
    frame: &Frame,
    direction: Direction,
    items: &[Item],
    selector: &[Read],
    last: &Option<Boxed<Place>>,
    rows: &Relation,
    targets: &mut Targets,
    list: &mut Items<Occurrence>,
) -> Result<Relation, AllocError>
    requires covers { Covers frame.now (effect_in items.now) }
    requires size { length rows.now ≡ size_of frame.now }
    requires none { targets.old.keys ≡ [] }
    requires rows { AreRows (size_of frame.now) list.old }
    ensures { IfOk result (λ ends. Done (λ e. Steps direction frame.now e rows.now) (ended selector.now last.now (effect_in items.now)) ends targets.new.keys list.old list.new) }
{
    let mut ends = rows.copy(alloc)?;
    over_all(alloc, frame, direction, items, &mut ends, list)?;
    add_all_targets(items, targets)?;
    match last {
        None => Ok(ends),
        Some(place) => {
            let place = *place.get();
            over_test(
                alloc,
                frame,
                direction,
                false,
                &[],
                selector,
                place,
                targets,
                rows,
                &mut ends,
                list,
            )?;
            Ok(ends)
        }
    }
}

/// Goes over one arm: to `ends` is added what it makes of the rows, and to `targets` what it sets.
#[cycle(over)]
fn over_arm(
    alloc: Global,
    frame: &Frame,
    direction: Direction,
    arm: &Arm,
    selector: &[Read],
    rows: &Relation,
    ends: &mut Relation,
    targets: &mut Targets,
    list: &mut Items<Occurrence>,
) -> Result<(), AllocError>
    requires covers { CoversArm frame.now (arm_of arm.now) }
    requires beside { Beside frame.now rows.now ends.old list.old }
    ensures { OnOk result (ArmPass (λ e. Steps direction frame.now e rows.now) frame.now (arm_of arm.now) selector.now ends.old ends.new targets.old.keys targets.new.keys list.old list.new) }
{
    let body = arm.body.as_slice();
    let mut start = arm_start(alloc, frame, direction, arm.is_exit, rows)?;
    over_all(alloc, frame, direction, body, &mut start, list)?;
    add_all_targets(body, targets)?;
    let end = arm_end(alloc, frame, direction, arm.is_exit, start)?;
    ends.union_with(&end);
    let reads = arm.reads.as_slice();
    let is_exit = arm.is_exit;
    let place = arm.place;
    over_test(
        alloc, frame, direction, is_exit, reads, selector, place, targets, rows, ends, list,
    )?;
    Ok(())
}

/// Goes over arms, from the last to the first.
#[cycle(over)]
fn over_arms(
    alloc: Global,
    frame: &Frame,
    direction: Direction,
    arms: &[Arm],
    selector: &[Read],
    rows: &Relation,
    ends: &mut Relation,
    targets: &mut Targets,
    list: &mut Items<Occurrence>,
) -> Result<(), AllocError>
    requires covers { All (λ arm. CoversArm frame.now (arm_of arm)) arms.now }
    requires beside { Beside frame.now rows.now ends.old list.old }
    ensures { OnOk result (Arms (λ e. Steps direction frame.now e rows.now) frame.now selector.now (map arm_of arms.now) ends.old ends.new targets.old.keys targets.new.keys list.old list.new) }
{
    for k in (0..arms.len()).rev() {
        over_arm(
            alloc, frame, direction, &arms[k], selector, rows, ends, targets, list,
        )?;
    }
    Ok(())
}

/// Goes over a loop, and once over its body.
#[cycle(over)]
fn over_loop(
    alloc: Global,
    frame: &Frame,
    direction: Direction,
    body: &[Item],
    head: &Head,
    rows: &mut Relation,
    list: &mut Items<Occurrence>,
) -> Result<(), AllocError>
    requires { Goes frame.now (loop_over head.now (effect_in body.now)) rows.old list.old }
    ensures { OnOk result (Steps direction frame.now (loop_over head.now (effect_in body.now)) rows.old rows.new list.old list.new) }
{
    let targets = all_targets(alloc, body)?;
    let stays = !have_exits(false, body);
    let start = turn_start(alloc, frame, direction, head, rows.size())?;
    let turn = over_turn(alloc, frame, direction, body, start)?;
    close_loop(
        alloc, frame, direction, head, stays, turn, &targets, rows, list,
    )
}

/// Goes over one turn of a loop.
#[cycle(over)]
fn over_turn(
    alloc: Global,
    frame: &Frame,
    direction: Direction,
    body: &[Item],
    start: Relation,
) -> Result<Turn, AllocError>
    requires covers { Covers frame.now (effect_in body.now) }
    requires size { length start ≡ size_of frame.now }
    ensures { IfOk result (λ turn. Steps direction frame.now (effect_in body.now) start turn.flow [] turn.inner) }
{
    let mut flow = start;
    let mut inner = Items::new(alloc);
    over_all(alloc, frame, direction, body, &mut flow, &mut inner)?;
    Ok(Turn { flow, inner })
}

/// Goes over items.
#[cycle(over)]
fn over_all(
    alloc: Global,
    frame: &Frame,
    direction: Direction,
    items: &[Item],
    rows: &mut Relation,
    list: &mut Items<Occurrence>,
) -> Result<(), AllocError>
    requires { Goes frame.now (effect_in items.now) rows.old list.old }
    ensures { OnOk result (Steps direction frame.now (effect_in items.now) rows.old rows.new list.old list.new) }
{
    match direction {
        Direction::Forward => after_all(alloc, frame, items, rows, list),
        Direction::Backward => before_all(alloc, frame, items, rows, list),
    }
}

/// Goes over items from the first to the last.
#[cycle(over)]
fn after_all(
    alloc: Global,
    frame: &Frame,
    items: &[Item],
    rows: &mut Relation,
    list: &mut Items<Occurrence>,
) -> Result<(), AllocError>
    requires { Goes frame.now (effect_in items.now) rows.old list.old }
    ensures { OnOk result (StepsForward frame.now (effect_in items.now) rows.old rows.new list.old list.new) }
{
    for item in items {
        over(alloc, frame, Direction::Forward, item, rows, list)?;
    }
    Ok(())
}

/// Goes over items from the last to the first.
#[cycle(over)]
fn before_all(
    alloc: Global,
    frame: &Frame,
    items: &[Item],
    rows: &mut Relation,
    list: &mut Items<Occurrence>,
) -> Result<(), AllocError>
    requires { Goes frame.now (effect_in items.now) rows.old list.old }
    ensures { OnOk result (StepsBack frame.now (effect_in items.now) rows.old rows.new list.old list.new) }
{
    for k in (0..items.len()).rev() {
        over(alloc, frame, Direction::Backward, &items[k], rows, list)?;
    }
    Ok(())
}

/// Goes over a whole body, from each point to itself.
fn over_body(
    alloc: Global,
    frame: &Frame,
    direction: Direction,
    items: &[Item],
    size: usize,
) -> Result<Turn, AllocError>
    requires covers { Covers frame.now (effect_in items.now) }
    requires size { size ≡ size_of frame.now }
    requires limit { size ≤ 65536 }
    ensures { IfOk result (λ turn. Turned direction frame.now (effect_in items.now) turn.flow turn.inner) }
{
    let start = Relation::identity(alloc, size)?;
    over_turn(alloc, frame, direction, items, start)
}

/// Each occurrence in the items, with the variables whose values before them may come to what it reads.
pub fn forward(
    alloc: Global,
    frame: &Frame,
    items: &[Item],
) -> Result<Items<Occurrence>, AllocError>
    requires covers { Covers frame.now (effect_in items.now) }
    requires size { length frame.now.vars ≤ most_variables }
    ensures rows { IfOk result (AreRows (length frame.now.vars)) }
    ensures lambda { IfOk result (λ list. (p : Place) (a : ℕ) (x : VarId) → Stands frame.now.vars a x → Relates list p a ↔ Lambda (effect_in items.now) x p) }
{
    let size = size_of(frame);
    let turn = over_body(alloc, frame, Direction::Forward, items, size)?;
    let count = frame.vars.len();
    let list = first_occurrences(alloc, turn.inner, size, count)?;
    Ok(list)
}

/// What leads on to the variables after the items.
pub fn backward(alloc: Global, frame: &Frame, items: &[Item]) -> Result<BackwardFlow, AllocError>
    requires covers { Covers frame.now (effect_in items.now) }
    requires size { length frame.now.vars ≤ most_variables }
    ensures { IfOk result (λ back. LeadOn frame.now.vars (effect_in items.now) back.rho back.mu) }
{
    let size = size_of(frame);
    let turn = over_body(alloc, frame, Direction::Backward, items, size)?;
    let count = frame.vars.len();
    let rho = first_pairs(alloc, turn.flow, count)?;
    let mu = first_occurrences(alloc, turn.inner, size, count)?;
    Ok(BackwardFlow { rho, mu })
}
