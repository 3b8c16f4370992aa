// Limits, and why a program has no findings.
ghost use Rattle.std.specs.Prelude.{◌≡◌};
ghost use Rattle.spx_report.specs.Limits.{limit_text};

use std::alloc::AllocError;
use thiserror::Error;

/// A counted quantity that has a greatest number.
#[derive(Clone, Copy, Debug, PartialEq, Eq)]
pub enum LimitName {
    /// The bytes of a file.
    FileSize,
    /// The tokens of a file.
    Tokens,
    /// The levels of expressions and statements.
    Nesting,
    /// The variables of a subprogram.
    Variables,
    /// The paths of a subprogram, from cut to cut.
    Paths,
    /// The nodes of a verification condition.
    Nodes,
    /// The array elements of the variables of a run.
    Elements,
    /// The bits of a number that an annotation computes in a run.
    Bits,
}

impl LimitName {
    /// The line that is printed where the limit is passed.
    pub fn text(self) -> &'static [u8]
        ensures { result.now ≡ limit_text self }
    {
        match self {
            LimitName::FileSize => b"limit: file size, at most 4194304\n",
            LimitName::Tokens => b"limit: tokens, at most 1000000\n",
            LimitName::Nesting => b"limit: nesting, at most 200\n",
            LimitName::Variables => b"limit: variables, at most 4096\n",
            LimitName::Paths => b"limit: paths, at most 4096\n",
            LimitName::Nodes => b"limit: nodes, at most 1000000\n",
            LimitName::Elements => b"limit: elements, at most 1000000\n",
            LimitName::Bits => b"limit: bits, at most 128\n",
        }
    }
}

/// Why there are no findings on the flow of a program, or on its conditions.
#[derive(Clone, Copy, Debug, PartialEq, Eq, Error)]
pub enum FindFault {
    /// A counted quantity passes its greatest number.
    #[error("a limit is passed")]
    Limit(LimitName),
    #[error("out of memory")]
    Memory,
}

impl From<AllocError> for FindFault {
    ghost use Rattle.spx_report.specs.declared.limit.FindFault.TheVariants.{Memory};

    ghost from_gives = { λ _ fault. fault ≡ Memory };

    fn from(_: AllocError) -> FindFault {
        FindFault::Memory
    }
}
