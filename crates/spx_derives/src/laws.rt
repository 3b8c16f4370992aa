// Laws of the definitions, each as the contract of a function that does nothing.
ghost use Rattle.std.specs.Prelude.{◌↔◌, Contains, List};
ghost use Rattle.spx_core.specs.declared.program.Program.{Program};
ghost use Rattle.spx_core.specs.declared.subprogram.Sub.{Sub};
ghost use Rattle.spx_derives.specs.declared.finding.FlowFinding.{FlowFinding};
ghost use Rattle.spx_derives.specs.FlowFindings.{Finds};

/// The findings of a subprogram can be listed.
pub fn some_findings()
    ensures { (p : Program) (sub : Sub) → (found : List FlowFinding) × ((f : FlowFinding) → Contains found f ↔ Finds p sub f) }
{}
