// The points between which values flow: variables before and after statements, variables where the loop around these is left,
// and the conditions of exits from it.
ghost use Rattle.std.specs.Prelude.{◌≡◌, ◌≤◌, ◌+◌, length};
ghost use Rattle.spx_core.specs.FlowRules.{most_variables};
ghost use Rattle.spx_passes.specs.Points.{size_of};

use spx_core::VarSet;

/// The variables of a subprogram, and whether loops in it are left by exits. Relations are indexed by the positions of points: first
/// each variable, and then, where there are exits, each variable where a loop is left, and the conditions of exits.
#[derive(Drop)]
pub struct Frame {
    pub vars: VarSet,
    /// Whether a loop in the body is left by an exit.
    pub has_exits: bool,
}

/// How many points there are.
pub(crate) fn size_of(frame: &Frame) -> usize
    requires { length frame.now.vars ≤ most_variables }
    ensures size { result ≡ size_of frame.now }
    ensures limit { result ≤ 65536 }
{
    let count = frame.vars.len();
    if frame.has_exits {
        count + count + 1
    } else {
        count
    }
}
