// From units to the program that they are, or the first rule on names and types that they break.
ghost use Rattle.std.specs.Prelude.{◌≡◌, IfErr, IfOk, MatchResult};
ghost use Rattle.spx_core.specs.declared.program.Program.{Program};
ghost use Rattle.spx_core.specs.Erased.{Visible, erased};
ghost use Rattle.spx_core.specs.Statements.{Typed, first_name_breach};
ghost use Rattle.spx_resolve.specs.declared.fault.ResolveFault.TheVariants.{Memory};
ghost use Rattle.spx_resolve.specs.Explains.{Explains};

use crate::fault::ResolveFault;
use crate::program::judge_program;
use spx_core::Program;
use spx_core::laws::{one_program, resolution};
use spx_naming::make_program;
use spx_tree::Unit;
use std::alloc::Global;

/// The one program that the units are, or the first rule on names or types that they break.
#[tactic(auto, unfolding(spx_core::specs::Statements::first_name_breach))]
pub fn resolve(alloc: Global, units: &[Unit]) -> Result<Program, ResolveFault>
    ensures resolved { IfOk result (λ p. (erased p ≡ units.now) × Visible p × Typed p) }
    ensures complete { (p : Program) → erased p ≡ units.now → Visible p → Typed p → MatchResult result (λ q. q ≡ p) (λ fault. fault ≡ Memory) }
    ensures breach { IfErr result (Explains (first_name_breach units.now)) }
{
    resolution();
    one_program();
    let program = make_program(alloc, units)?;
    match judge_program(&program) {
        Ok(()) => Ok(program),
        Err(breach) => Err(ResolveFault::Breach(breach)),
    }
}
