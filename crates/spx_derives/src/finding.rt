// Findings on flow.

use spx_core::VarId;
use spx_text::Place;

/// What a declared dependency relation and a body disagree on.
#[derive(Clone, Copy, PartialEq, Eq)]
pub enum FlowFinding {
    /// At the export: the flow from the first variable to the second is not declared.
    Missing(Place, VarId, VarId),
    /// At the export: the second variable is declared to be derived from the first, and is not.
    Unused(Place, VarId, VarId),
    /// The value that the statement here gives reaches no export.
    Ineffective(Place),
    /// The variable may be read here, or left here as an export, before it is set.
    UnsetRead(Place, VarId),
}
