// Laws of the definitions, each as the contract of a function that does nothing.
ghost use Rattle.std.specs.Prelude.{◌≡◌, List};
ghost use Rattle.spx_core.specs.declared.program.Program.{Program};
ghost use Rattle.spx_report.specs.declared.report.Finding.{Finding};
ghost use Rattle.spx_report.specs.FlowLines.{AreFlowLines};

/// A program has one list of flow lines.
pub fn one_list_of_flow_lines()
    ensures { (p : Program) (a b : List Finding) → AreFlowLines p a → AreFlowLines p b → a ≡ b }
{}

/// A program has a list of flow lines.
pub fn some_list_of_flow_lines()
    ensures { (p : Program) → (lines : List Finding) × AreFlowLines p lines }
{
    spx_derives::some_findings();
}
