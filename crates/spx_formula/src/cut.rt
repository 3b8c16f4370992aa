// The own cut of a loop.
ghost use Rattle.spx_formula.specs.OwnCuts.{OwnCut};

use spx_core::{CoreStmt, has_own_cut};
use std::array;

/// The position of the first of the statements that is itself an `assert`.
pub fn own_cut(stmts: &[CoreStmt]) -> Option<usize>
    ensures { OwnCut stmts.now result }
{
    for (i, stmt) in stmts.iter().enumerate() {
        if has_own_cut(array::from_ref(stmt)) {
            return Some(i);
        }
    }
    None
}
