// How a run ends, and why there is no answer.

use spx_meaning::Bad;
use std::alloc::AllocError;
use thiserror::Error;

/// How a run ends.
#[derive(Clone, Copy, Debug, PartialEq, Eq)]
pub enum Finish {
    /// At its end.
    Ended,
    /// At a check that fails.
    Faulted(Bad),
    /// Not within the bound.
    Later,
}

/// What has a limit in a run.
#[derive(Clone, Copy, Debug, PartialEq, Eq)]
pub enum RunLimit {
    /// The array elements of the variables of the subprogram: at most 1,000,000.
    Elements,
    /// The bits of a number that an annotation computes: at most 128.
    Bits,
}

/// Why there is no answer.
#[derive(Clone, Copy, Debug, PartialEq, Eq, Drop, Error)]
pub enum RunFault {
    /// A limit is passed before the run ends.
    #[error("a limit is passed")]
    TooLarge(RunLimit),
    #[error("out of memory")]
    Memory,
}

impl From<AllocError> for RunFault {
    ghost use Rattle.std.specs.Prelude.{◌≡◌};
    ghost use Rattle.spx_interp.specs.declared.fault.RunFault.TheVariants.{Memory};

    ghost from_gives = { λ _ fault. fault ≡ Memory };

    fn from(_: AllocError) -> Self {
        RunFault::Memory
    }
}
