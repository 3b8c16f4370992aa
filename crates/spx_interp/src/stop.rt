// Why there is no value.
ghost use Rattle.std.specs.Prelude.{◌≡◌};
ghost use Rattle.spx_interp.specs.Results.{Answers, Computes, answered, stopped};

use crate::fault::{RunFault, RunLimit};
use crate::operand::Operand;
use crate::step::Step;
use spx_meaning::Bad;
use std::alloc::AllocError;

/// Why an expression in code has no value.
#[derive(Clone, Copy, PartialEq, Eq)]
pub(crate) enum Stop {
    /// A check fails.
    Failed(Bad),
    /// There is no memory for a value.
    Memory,
}

impl Stop {
    /// How the statements end that want the value.
    pub(crate) fn step(self) -> Result<Step, RunFault>
        ensures { result ≡ stopped self }
    {
        match self {
            Stop::Failed(bad) => Ok(Step::Failed(bad)),
            Stop::Memory => Err(RunFault::Memory),
        }
    }
}

impl From<AllocError> for Stop {
    ghost use Rattle.std.specs.Prelude.{◌≡◌};
    ghost use Rattle.spx_interp.specs.declared.stop.Stop.TheVariants.{Memory};

    ghost from_gives = { λ _ stop. stop ≡ Memory };

    fn from(_: AllocError) -> Self {
        Stop::Memory
    }
}

/// The value of an expression, or the check that fails.
pub(crate) fn answer<'a>(found: Result<Operand<'a>, Bad>) -> Result<Operand<'a>, Stop>
    ensures { Answers result (answered found.entry) }
{
    match found {
        Ok(value) => Ok(value),
        Err(bad) => Err(Stop::Failed(bad)),
    }
}

/// The value of an annotation. What 128 bits do not hold is missing.
pub(crate) fn fitting<'a>(found: Option<Operand<'a>>) -> Result<Operand<'a>, RunFault>
    ensures { Computes result found.entry }
{
    match found {
        Some(value) => Ok(value),
        None => Err(RunFault::TooLarge(RunLimit::Bits)),
    }
}
