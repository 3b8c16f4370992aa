// Why there is no form, and no answer.
use spx_num::TooWide;
use std::alloc::AllocError;
use thiserror::Error;

/// Why there is no answer.
#[derive(Clone, Copy, Debug, PartialEq, Eq, Error)]
pub enum LinearFault {
    /// A coefficient or a constant does not fit in 128 bits.
    #[error("number too wide")]
    TooWide,
    #[error("out of memory")]
    Memory,
}

impl From<AllocError> for LinearFault {
    ghost use Rattle.std.specs.Prelude.{◌≡◌};
    ghost use Rattle.spx_linear.specs.declared.fault.LinearFault.TheVariants.{Memory};

    ghost from_gives = { λ _ fault. fault ≡ Memory };

    fn from(_: AllocError) -> LinearFault {
        LinearFault::Memory
    }
}

impl From<TooWide> for LinearFault {
    ghost use Rattle.std.specs.Prelude.{◌≡◌};
    ghost use Rattle.spx_linear.specs.declared.fault.LinearFault.TheVariants as fault;

    ghost from_gives = { λ _ it. it ≡ fault.TooWide };

    fn from(_: TooWide) -> LinearFault {
        LinearFault::TooWide
    }
}
