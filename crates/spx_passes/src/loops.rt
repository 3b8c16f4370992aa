// Loops, both ways, over one turn that has been gone over.
ghost use Rattle.std.specs.Prelude.{◌≡◌, ◌==◌, ◌≤◌, Bool, Some, IfOk, OnOk, length};
ghost use Rattle.std.specs.List.{IsDistinct};
ghost use Rattle.spx_core.specs.Effects.{assign, count, endless, reads_in, repeat};
ghost use Rattle.spx_core.specs.Mirror.VarSets.{holds};
ghost use Rattle.spx_lower.specs.Meaning.{loop_over};
ghost use Rattle.spx_passes.specs.Directions.{Closes, IsIdentity, IsKept, Ready, TurnBegins, backward, forward};
ghost use Rattle.spx_passes.specs.Positions.{Stands};
ghost use Rattle.spx_passes.specs.Points.{FlowTo, Takes, on_variables, size_of};
ghost use Rattle.spx_passes.specs.Occurrences.{AreRows};
ghost use Rattle.spx_passes.specs.Loops.{Enters, IsLeft};
ghost use Rattle.spx_passes.specs.Steps.{Beside};

use crate::direction::Direction;
use crate::frame::Frame;
use crate::occurrence::Occurrence;
use crate::positions::{bounds_read, positions_read};
use crate::rows::{of_variables, reached, replace, spread, ways_in, ways_out};
use crate::targets::Targets;
use crate::turns::{Turn, begun, turned};
use spx_core::VarId;
use spx_lower::{Head, Read};
use spx_rows::Relation;
use spx_text::Place;
use sqlite_items::Items;
use std::alloc::{AllocError, Global};

/// The rows with which a turn begins backward where the loop has a parameter: what the body makes of it leads on to nothing, since each
/// turn begins with a value of the loop's own.
fn kept_start(frame: &Frame, parameter: VarId, itself: Relation) -> Relation
    requires once { IsDistinct ◌==◌ frame.now.vars }
    requires itself { IsIdentity frame.now itself }
    ensures size { length result ≡ size_of frame.now }
    ensures kept { IsKept frame.now parameter result }
{
    let mut start = itself;
    match frame.vars.position(parameter) {
        Some(position) => {
            start.clear_row(position);
            start
        }
        None => start,
    }
}

/// The rows with which one turn of a loop begins.
pub(crate) fn turn_start(
    alloc: Global,
    frame: &Frame,
    direction: Direction,
    head: &Head,
    size: usize,
) -> Result<Relation, AllocError>
    requires once { IsDistinct ◌==◌ frame.now.vars }
    requires size { size ≡ size_of frame.now }
    requires limit { size ≤ 65536 }
    ensures size { IfOk result (λ start. length start ≡ size_of frame.now) }
    ensures begins { IfOk result (TurnBegins direction frame.now head.now) }
{
    let itself = Relation::identity(alloc, size)?;
    match direction {
        Direction::Forward => Ok(itself),
        Direction::Backward => match head {
            Head::Tested(_, _) => Ok(itself),
            Head::Counted(parameter, _, _) => {
                let start = kept_start(frame, *parameter, itself);
                Ok(start)
            }
            Head::Endless => Ok(itself),
        },
    }
}

/// Goes forward past a `while` loop. Any number of turns leads to the head, where the condition is read, or to an exit.
fn after_tested(
    alloc: Global,
    frame: &Frame,
    turn: &Turn,
    targets: &Targets,
    reads: &[Read],
    place: Place,
    state: &mut Relation,
    lambda: &mut Items<Occurrence>,
) -> Result<(), AllocError>
    requires { Ready frame.now turn.now.flow turn.now.inner state.old lambda.old }
    ensures { OnOk result ((stays : Bool) → Closes forward frame.now (IsIdentity frame.now) (λ body. repeat reads.now body place) (λ v. holds targets.now.keys v) stays turn.now.flow turn.now.inner state.old state.new lambda.old lambda.new) }
{
    let from = positions_read(alloc, frame, reads)?;
    let to = reached(alloc, frame, false, targets, state.size())?;
    let first = of_variables(alloc, frame, state)?;
    let head = turned(alloc, turn, &first, lambda)?;
    let mut ends = ways_in(alloc, frame, true, targets, &head)?;
    let from = from.as_slice();
    let to = to.as_slice();
    spread(alloc, frame, place, from, to, &head, &mut ends, lambda)?;
    replace(frame, &ends, state);
    Ok(())
}

/// Goes backward past a `while` loop. Any number of turns leads on to a last reading of the condition, or to an exit.
fn before_tested(
    alloc: Global,
    frame: &Frame,
    turn: &Turn,
    targets: &Targets,
    reads: &[Read],
    place: Place,
    rho: &mut Relation,
    mu: &mut Items<Occurrence>,
) -> Result<(), AllocError>
    requires { Ready frame.now turn.now.flow turn.now.inner rho.old mu.old }
    ensures { OnOk result ((stays : Bool) → Closes backward frame.now (IsIdentity frame.now) (λ body. repeat reads.now body place) (λ v. holds targets.now.keys v) stays turn.now.flow turn.now.inner rho.old rho.new mu.old mu.new) }
{
    let from = positions_read(alloc, frame, reads)?;
    let to = reached(alloc, frame, false, targets, rho.size())?;
    let mut last = ways_out(alloc, frame, true, targets, rho)?;
    let from = from.as_slice();
    let to = to.as_slice();
    spread(alloc, frame, place, to, from, rho, &mut last, mu)?;
    let head = turned(alloc, turn, &last, mu)?;
    replace(frame, &head, rho);
    Ok(())
}

/// Goes forward past a loop of no head. Where there are exits, the loop is left at these alone.
fn after_endless(
    alloc: Global,
    frame: &Frame,
    turn: &Turn,
    targets: &Targets,
    stays: bool,
    state: &mut Relation,
    lambda: &mut Items<Occurrence>,
) -> Result<(), AllocError>
    requires { Ready frame.now turn.now.flow turn.now.inner state.old lambda.old }
    ensures { OnOk result (Closes forward frame.now (IsIdentity frame.now) (λ body. endless body) (λ v. holds targets.now.keys v) stays turn.now.flow turn.now.inner state.old state.new lambda.old lambda.new) }
{
    let first = of_variables(alloc, frame, state)?;
    let head = turned(alloc, turn, &first, lambda)?;
    let ends = ways_in(alloc, frame, stays, targets, &head)?;
    replace(frame, &ends, state);
    Ok(())
}

/// Goes backward past a loop of no head.
fn before_endless(
    alloc: Global,
    frame: &Frame,
    turn: &Turn,
    targets: &Targets,
    stays: bool,
    rho: &mut Relation,
    mu: &mut Items<Occurrence>,
) -> Result<(), AllocError>
    requires { Ready frame.now turn.now.flow turn.now.inner rho.old mu.old }
    ensures { OnOk result (Closes backward frame.now (IsIdentity frame.now) (λ body. endless body) (λ v. holds targets.now.keys v) stays turn.now.flow turn.now.inner rho.old rho.new mu.old mu.new) }
{
    let last = ways_out(alloc, frame, stays, targets, rho)?;
    let head = turned(alloc, turn, &last, mu)?;
    replace(frame, &head, rho);
    Ok(())
}

/// The rows where the turns of a loop over a parameter begin: the parameter has the sources of what its bounds read.
fn entered(
    alloc: Global,
    frame: &Frame,
    position: usize,
    parameter: VarId,
    bounds: &Option<Items<Read>>,
    place: Place,
    state: &Relation,
) -> Result<Relation, AllocError>
    requires once { IsDistinct ◌==◌ frame.now.vars }
    requires size { length state.now ≡ size_of frame.now }
    requires parameter { Stands frame.now.vars position parameter }
    ensures size { IfOk result (λ start. length start ≡ size_of frame.now) }
    ensures rows { IfOk result (λ start. Takes frame.now (λ y z. FlowTo (assign (Some parameter) (reads_in bounds.now) place) z y) state.now start) }
{
    let from = bounds_read(alloc, frame, bounds)?;
    let mut start = state.copy(alloc)?;
    start.set_row(position, from.as_slice());
    Ok(start)
}

/// Goes forward over the bounds of a loop, where they are written: what they read comes to all targets.
fn after_bounds(
    alloc: Global,
    frame: &Frame,
    bounds: &Option<Items<Read>>,
    place: Place,
    targets: &Targets,
    state: &Relation,
    ends: &mut Relation,
    lambda: &mut Items<Occurrence>,
) -> Result<(), AllocError>
    requires { Beside frame.now state.now ends.old lambda.old }
    ensures { OnOk result (IsLeft frame.now bounds.now (λ x. on_variables (λ v. holds targets.now.keys v) x) place state.now ends.old ends.new lambda.old lambda.new) }
{
    match bounds {
        None => Ok(()),
        Some(reads) => {
            let from = positions_read(alloc, frame, reads.as_slice())?;
            let to = reached(alloc, frame, false, targets, state.size())?;
            let from = from.as_slice();
            let to = to.as_slice();
            spread(alloc, frame, place, from, to, state, ends, lambda)?;
            Ok(())
        }
    }
}

/// Goes forward past a loop over a parameter. The turns begin where the parameter has the sources of its bounds, and each of them keeps
/// these. After the loop the parameter has no sources.
fn after_counted(
    alloc: Global,
    frame: &Frame,
    turn: Turn,
    targets: &Targets,
    parameter: VarId,
    bounds: &Option<Items<Read>>,
    place: Place,
    state: &mut Relation,
    lambda: &mut Items<Occurrence>,
) -> Result<(), AllocError>
    requires { Ready frame.now turn.flow turn.inner state.old lambda.old }
    ensures { OnOk result ((stays : Bool) → Closes forward frame.now (IsIdentity frame.now) (λ body. count parameter bounds.now body place) (λ v. holds targets.now.keys v) stays turn.flow turn.inner state.old state.new lambda.old lambda.new) }
{
    let Some(position) = frame.vars.position(parameter) else {
        return Ok(());
    };
    let mut kept = turn;
    kept.flow.clear_row(position);
    kept.flow.add(position, position);
    let variables = of_variables(alloc, frame, state)?;
    let first = entered(alloc, frame, position, parameter, bounds, place, &variables)?;
    let head = turned(alloc, &kept, &first, lambda)?;
    let last = begun(alloc, bounds, &kept.flow, head)?;
    let mut ends = ways_in(alloc, frame, true, targets, &last)?;
    after_bounds(
        alloc, frame, bounds, place, targets, state, &mut ends, lambda,
    )?;
    ends.clear_row(position);
    replace(frame, &ends, state);
    Ok(())
}

/// Goes backward over the bounds of a loop, where they are written. What leads on from the first value of the parameter, and
/// from all that the body sets, leads on from what they read; `past` leads on from after the loop. The parameter has no
/// value before.
fn before_bounds(
    alloc: Global,
    frame: &Frame,
    bounds: &Option<Items<Read>>,
    place: Place,
    parameter: VarId,
    position: usize,
    past: &Relation,
    head: &mut Relation,
    targets: &Targets,
    mu: &mut Items<Occurrence>,
) -> Result<(), AllocError>
    requires parameter { Stands frame.now.vars position parameter }
    requires beside { Beside frame.now past.now head.old mu.old }
    ensures { OnOk result (Enters frame.now parameter bounds.now (λ x. on_variables (λ v. holds targets.now.keys v) x) place past.now head.old head.new mu.old mu.new) }
{
    let from = bounds_read(alloc, frame, bounds)?;
    let from = from.as_slice();
    head.spread_row(position, from);
    match bounds {
        Some(_) => {
            let to = reached(alloc, frame, false, targets, past.size())?;
            let to = to.as_slice();
            spread(alloc, frame, place, to, from, past, head, mu)?;
            Ok(())
        }
        None => Ok(()),
    }
}

/// Goes backward past a loop over a parameter. After the loop the parameter is gone.
fn before_counted(
    alloc: Global,
    frame: &Frame,
    turn: Turn,
    targets: &Targets,
    parameter: VarId,
    bounds: &Option<Items<Read>>,
    place: Place,
    rho: &mut Relation,
    mu: &mut Items<Occurrence>,
) -> Result<(), AllocError>
    requires { Ready frame.now turn.flow turn.inner rho.old mu.old }
    ensures { OnOk result ((stays : Bool) → Closes backward frame.now (IsKept frame.now parameter) (λ body. count parameter bounds.now body place) (λ v. holds targets.now.keys v) stays turn.flow turn.inner rho.old rho.new mu.old mu.new) }
{
    let Some(position) = frame.vars.position(parameter) else {
        return Ok(());
    };
    let mut kept = turn;
    kept.flow.add(position, position);
    let mut past = rho.copy(alloc)?;
    past.clear_row(position);
    let last = ways_out(alloc, frame, true, targets, &past)?;
    let rest = turned(alloc, &kept, &last, mu)?;
    let mut head = begun(alloc, bounds, &kept.flow, rest)?;
    before_bounds(
        alloc, frame, bounds, place, parameter, position, &past, &mut head, targets, mu,
    )?;
    replace(frame, &head, rho);
    Ok(())
}

/// Goes past a loop, of which one turn has been gone over.
pub(crate) fn close_loop(
    alloc: Global,
    frame: &Frame,
    direction: Direction,
    head: &Head,
    stays: bool,
    turn: Turn,
    targets: &Targets,
    rows: &mut Relation,
    list: &mut Items<Occurrence>,
) -> Result<(), AllocError>
    requires { Ready frame.now turn.flow turn.inner rows.old list.old }
    ensures { OnOk result (Closes direction frame.now (TurnBegins direction frame.now head.now) (λ body. loop_over head.now body) (λ v. holds targets.now.keys v) stays turn.flow turn.inner rows.old rows.new list.old list.new) }
{
    match direction {
        Direction::Forward => match head {
            Head::Tested(reads, place) => {
                let reads = reads.as_slice();
                after_tested(alloc, frame, &turn, targets, reads, *place, rows, list)
            }
            Head::Counted(parameter, bounds, place) => after_counted(
                alloc, frame, turn, targets, *parameter, bounds, *place, rows, list,
            ),
            Head::Endless => after_endless(alloc, frame, &turn, targets, stays, rows, list),
        },
        Direction::Backward => match head {
            Head::Tested(reads, place) => {
                let reads = reads.as_slice();
                before_tested(alloc, frame, &turn, targets, reads, *place, rows, list)
            }
            Head::Counted(parameter, bounds, place) => before_counted(
                alloc, frame, turn, targets, *parameter, bounds, *place, rows, list,
            ),
            Head::Endless => before_endless(alloc, frame, &turn, targets, stays, rows, list),
        },
    }
}
