// Where a program's text goes.
ghost use Rattle.std.specs.Prelude.{◌≡◌, ◌<◌, ◌≤◌, ℕ, List, Option, length, take, IfOk, OnOk, OnErr};
ghost use Rattle.spx_text.specs.Writes.{after, Rose, HasCause, IsPart};

use thiserror::Error;

/// A write took nothing, and the sink has counted a fault.
#[derive(Clone, Copy, Debug, PartialEq, Eq, Error)]
#[error("the text could not be written")]
pub struct Failed;

/// What takes a program's text.
pub trait Sink {
    /// The bytes taken so far, where they are known.
    ghost taken: { Self → Option (List ℕ) };

    /// How often a write has failed. At the end of its type it stands still.
    ghost faults: { Self → ℕ };

    /// Takes the first bytes of the piece, and answers how many: at least one, where the piece has any.
    fn write(&mut self, piece: &[u8]) -> Result<usize, Failed>
        ensures count { IfOk result (λ n. n ≤ length piece.now) }
        ensures some { IfOk result (λ n. 0 < length piece.now → 0 < n) }
        ensures taken { IfOk result (λ n. taken self.new ≡ after (taken self.old) (take n piece.now)) }
        ensures none { OnErr result (taken self.new ≡ taken self.old) }
        ensures cause { HasCause (faults self.old) (faults self.new) result };
}

/// Writes all the bytes, in as many pieces as the sink asks for. It takes no memory.
pub fn write_all_pieces<S: Sink>(sink: &mut S, bytes: &[u8]) -> Result<(), Failed>
    ensures all { OnOk result (S.taken sink.new ≡ after (S.taken sink.old) bytes.now) }
    ensures part { OnErr result (IsPart (S.taken sink.old) (S.taken sink.new) bytes.now) }
    ensures cause { HasCause (S.faults sink.old) (S.faults sink.new) result }
{
    let mut at = 0;
    while at < bytes.len() {
        at += sink.write(&bytes[at..])?;
    }
    Ok(())
}

// Counts a fault of a write. At the end of its type the count stands still.
pub(crate) fn count_fault(faults: &mut u64) -> Failed
    ensures rose { Rose faults.old faults.new }
    ensures later { faults.old ≤ faults.new }
{
    *faults = faults.saturating_add(1);
    Failed
}
