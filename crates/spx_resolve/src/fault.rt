// Why units are no program that keeps the rules on names and types.
ghost use Rattle.std.specs.Prelude.{◌≡◌};
ghost use Rattle.spx_resolve.specs.declared.fault.ResolveFault.TheVariants as reason;

use spx_core::Breach;
use std::alloc::AllocError;
use thiserror::Error;

/// Why units are no program that keeps the rules on names and types.
#[derive(Clone, Copy, Debug, PartialEq, Eq, Error)]
pub enum ResolveFault {
    /// The first breach of a rule on names or types.
    #[error("a rule on names or types is broken")]
    Breach(Breach),
    #[error("out of memory")]
    Memory,
}

impl From<Breach> for ResolveFault {
    ghost from_gives = { λ breach fault. fault ≡ reason.Breach breach };

    fn from(breach: Breach) -> ResolveFault {
        ResolveFault::Breach(breach)
    }
}

impl From<AllocError> for ResolveFault {
    ghost from_gives = { λ _ fault. fault ≡ reason.Memory };

    fn from(_: AllocError) -> ResolveFault {
        ResolveFault::Memory
    }
}
