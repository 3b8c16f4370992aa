// Assignments, both ways.
ghost use Rattle.std.specs.Prelude.{◌≡◌, OnOk, length};
ghost use Rattle.spx_core.specs.Effects.{assign};
ghost use Rattle.spx_passes.specs.Directions.{Steps};
ghost use Rattle.spx_passes.specs.Positions.{Covers};
ghost use Rattle.spx_passes.specs.Points.{size_of};
ghost use Rattle.spx_passes.specs.Occurrences.{AreRows};
ghost use Rattle.spx_passes.specs.Steps.{Goes, StepsBack, StepsForward};

use crate::direction::Direction;
use crate::frame::Frame;
use crate::occurrence::Occurrence;
use crate::positions::{position_of, positions_read};
use spx_lower::Assignment;
use spx_rows::Relation;
use sqlite_items::Items;
use std::alloc::{AllocError, Global};

/// Goes forward over an assignment.
fn after_assignment(
    alloc: Global,
    frame: &Frame,
    assignment: &Assignment,
    state: &mut Relation,
    lambda: &mut Items<Occurrence>,
) -> Result<(), AllocError>
    requires { Goes frame.now (assign assignment.now.target assignment.now.reads assignment.now.place) state.old lambda.old }
    ensures { OnOk result (StepsForward frame.now (assign assignment.now.target assignment.now.reads assignment.now.place) state.old state.new lambda.old lambda.new) }
{
    let reads = assignment.reads.as_slice();
    match position_of(&frame.vars, assignment.target) {
        Some(position) => {
            let from = positions_read(alloc, frame, reads)?;
            state.set_row(position, from.as_slice());
            let vars = state.row(alloc, position)?;
            let place = assignment.place;
            lambda.push(Occurrence { place, vars })?;
            Ok(())
        }
        None => Ok(()),
    }
}

/// Goes backward over an assignment.
fn before_assignment(
    alloc: Global,
    frame: &Frame,
    assignment: &Assignment,
    rho: &mut Relation,
    mu: &mut Items<Occurrence>,
) -> Result<(), AllocError>
    requires { Goes frame.now (assign assignment.now.target assignment.now.reads assignment.now.place) rho.old mu.old }
    ensures { OnOk result (StepsBack frame.now (assign assignment.now.target assignment.now.reads assignment.now.place) rho.old rho.new mu.old mu.new) }
{
    let reads = assignment.reads.as_slice();
    match position_of(&frame.vars, assignment.target) {
        Some(position) => {
            let from = positions_read(alloc, frame, reads)?;
            let vars = rho.row(alloc, position)?;
            let place = assignment.place;
            mu.push(Occurrence { place, vars })?;
            rho.spread_row(position, from.as_slice());
            Ok(())
        }
        None => Ok(()),
    }
}

/// Goes over an assignment.
pub(crate) fn over_assignment(
    alloc: Global,
    frame: &Frame,
    direction: Direction,
    assignment: &Assignment,
    rows: &mut Relation,
    list: &mut Items<Occurrence>,
) -> Result<(), AllocError>
    requires { Goes frame.now (assign assignment.now.target assignment.now.reads assignment.now.place) rows.old list.old }
    ensures { OnOk result (Steps direction frame.now (assign assignment.now.target assignment.now.reads assignment.now.place) rows.old rows.new list.old list.new) }
{
    match direction {
        Direction::Forward => after_assignment(alloc, frame, assignment, rows, list),
        Direction::Backward => before_assignment(alloc, frame, assignment, rows, list),
    }
}
