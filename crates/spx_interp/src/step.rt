// How the run of statements ends.

ghost use Rattle.std.specs.Prelude.{◌≡◌};
ghost use Rattle.spx_interp.specs.Results.{has_ended, past_loop};

use spx_meaning::Bad;

/// How the run of statements ends. The store is then in the state that the run has left it in.
#[derive(Clone, Copy, PartialEq, Eq)]
pub(crate) enum Step {
    /// At their end.
    Ended,
    /// By an exit from the loop around them.
    Left,
    /// At a check that fails.
    Failed(Bad),
    /// Not within the bound.
    Later,
}

impl Step {
    /// Whether the statements are at their end.
    pub(crate) fn has_ended(self) -> bool
        ensures { result ≡ has_ended self }
    {
        match self {
            Step::Ended => true,
            Step::Left | Step::Failed(_) | Step::Later => false,
        }
    }

    /// How the loop around the statements then ends, where they have not come to their end. An exit ends it.
    pub(crate) fn past_loop(self) -> Step
        ensures { result ≡ past_loop self }
    {
        match self {
            Step::Ended | Step::Left => Step::Ended,
            Step::Failed(bad) => Step::Failed(bad),
            Step::Later => Step::Later,
        }
    }
}
