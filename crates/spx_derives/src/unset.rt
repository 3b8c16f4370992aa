// Reads of variables that may be unset.
ghost use Rattle.std.specs.Prelude.{◌≡◌, ◌++◌, OnOk, map};
ghost use Rattle.spx_derives.specs.Tables.{unset_read};

use crate::finding::FlowFinding;
use spx_core::VarId;
use spx_text::Place;
use std::alloc::AllocError;

/// Adds a finding for each of these reads.
pub(crate) fn add_unset_reads(
    found: &mut Vec<FlowFinding>,
    reads: &[(Place, VarId)],
) -> Result<(), AllocError>
    ensures { OnOk result (found.new.items ≡ found.old.items ++ map unset_read reads.now) }
{
    for (place, var) in reads {
        found.push(FlowFinding::UnsetRead(*place, *var))?;
    }
    Ok(())
}
