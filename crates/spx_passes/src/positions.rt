// Variables by their position.
ghost use Rattle.std.specs.Prelude.{◌≡◌, ◌==◌, [], ◌++◌, ◌<◌, All, IfOk, OnOk};
ghost use Rattle.std.specs.List.{IsDistinct, cons_option};
ghost use Rattle.std.specs.Option.{option_and_then};
ghost use Rattle.spx_core.specs.Effects.{reads_in};
ghost use Rattle.spx_core.specs.Mirror.VarSets.{place_in_set};
ghost use Rattle.spx_passes.specs.Positions.{positions_at};
ghost use Rattle.spx_passes.specs.Points.{Places, size_of};
ghost use Rattle.spx_passes.specs.Loops.{read_points};

use crate::frame::Frame;
use spx_core::{VarId, VarSet};
use spx_lower::Read;
use sqlite_items::Items;
use std::alloc::{AllocError, Global};

/// The position of the variable, if there is one and it is in the set.
pub(crate) fn position_of(vars: &VarSet, var: Option<VarId>) -> Option<usize>
    ensures { result ≡ option_and_then (place_in_set vars.now) var }
{
    vars.position(var?)
}

/// Adds the position of the variable, if it is in the set.
pub(crate) fn add_position(
    vars: &VarSet,
    var: VarId,
    found: &mut Vec<usize>,
) -> Result<(), AllocError>
    ensures { OnOk result (found.new.items ≡ found.old.items ++ cons_option (place_in_set vars.now var) []) }
{
    match vars.position(var) {
        Some(position) => {
            found.push(position)?;
            Ok(())
        }
        None => Ok(()),
    }
}

/// Adds the positions of what is read.
fn add_positions(vars: &VarSet, reads: &[Read], found: &mut Vec<usize>) -> Result<(), AllocError>
    ensures { OnOk result (found.new.items ≡ found.old.items ++ positions_at vars.now reads.now) }
{
    for k in 0..reads.len() {
        add_position(vars, reads[k].1, found)?;
    }
    Ok(())
}

/// The positions of what is read.
pub(crate) fn positions_read(
    alloc: Global,
    frame: &Frame,
    reads: &[Read],
) -> Result<Vec<usize>, AllocError>
    requires { IsDistinct ◌==◌ frame.now.vars }
    ensures within { IfOk result (λ found. All (λ k. k < size_of frame.now) found.items) }
    ensures exact { IfOk result (λ found. Places frame.now found.items (read_points reads.now)) }
{
    let mut found = Vec::new(alloc);
    add_positions(&frame.vars, reads, &mut found)?;
    Ok(found)
}

/// The positions of what is read in two places.
pub(crate) fn positions_of_both(
    alloc: Global,
    frame: &Frame,
    reads: &[Read],
    more: &[Read],
) -> Result<Vec<usize>, AllocError>
    requires { IsDistinct ◌==◌ frame.now.vars }
    ensures within { IfOk result (λ found. All (λ k. k < size_of frame.now) found.items) }
    ensures exact { IfOk result (λ found. Places frame.now found.items (read_points (reads.now ++ more.now))) }
{
    let mut found = Vec::new(alloc);
    add_positions(&frame.vars, reads, &mut found)?;
    add_positions(&frame.vars, more, &mut found)?;
    Ok(found)
}

/// The positions of the variables that the bounds of a loop read, where they are written.
pub(crate) fn bounds_read(
    alloc: Global,
    frame: &Frame,
    bounds: &Option<Items<Read>>,
) -> Result<Vec<usize>, AllocError>
    requires { IsDistinct ◌==◌ frame.now.vars }
    ensures within { IfOk result (λ found. All (λ k. k < size_of frame.now) found.items) }
    ensures exact { IfOk result (λ found. Places frame.now found.items (read_points (reads_in bounds.now))) }
{
    match bounds {
        Some(reads) => positions_read(alloc, frame, reads.as_slice()),
        None => Ok(Vec::new(alloc)),
    }
}
