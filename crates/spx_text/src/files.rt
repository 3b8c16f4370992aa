// The files that a program loads.
ghost use Rattle.std.specs.Prelude.{◌≡◌, ◌⊎◌, ◌<◌, ◌++◌, ◌∷◌, [], List, ℕ, length, take, Option, IfErr, IfSome, OnOk, OnErr, IsErrOf};
ghost use Rattle.spx_text.specs.Loads.{failed_by, named_by, names, Appends};

use std::alloc::Global;
use thiserror::Error;

/// Why a file was not loaded.
#[derive(Clone, Copy, Debug, PartialEq, Eq, Error)]
pub enum LoadFault {
    /// The file could not be read, and its name is kept.
    #[error("the file could not be read")]
    Failed,
    /// The file has more bytes than were asked for.
    #[error("the file is too long")]
    TooLong,
    /// There is no room for the bytes, or for the name.
    #[error("out of memory")]
    Memory,
}

/// Files that are loaded whole, by name.
pub trait Files {
    /// The bytes of each name, where they are known.
    ghost known: { Self → List ℕ → Option (List ℕ) };

    /// The names that were asked for, the oldest first.
    ghost asked: { Self → List (List ℕ) };

    /// The names whose loads failed, the oldest first.
    ghost failed: { Self → List (List ℕ) };

    /// Appends the bytes of the file of this name to `into`, at most `most` of them. After a refusal `into` is unchanged.
    fn load(&mut self, name: &str, into: &mut Vec<u8>, most: usize) -> Result<(), LoadFault>
        // No call changes what is known.
        ensures known { (n : List ℕ) → known self.new n ≡ known self.old n }

        // The name is one that was asked for, whatever the answer. Where memory runs out, it may not be.
        ensures asked { (IsErrOf result LoadFault.Memory → ⊥) → asked self.new ≡ asked self.old ++ name.now ∷ [] }
        ensures grown { (asked self.new ≡ asked self.old) ⊎ (asked self.new ≡ asked self.old ++ name.now ∷ []) }

        // It is one whose load failed exactly where the answer is `Failed`.
        ensures failed { failed self.new ≡ failed self.old ++ failed_by result name.now }

        ensures kept { OnOk result (take (length into.old.items) into.new.items ≡ into.old.items) }
        ensures loaded { OnOk result (IfSome (known self.old name.now) (Appends most into.old.items into.new.items)) }
        ensures too_long { IsErrOf result LoadFault.TooLong → IfSome (known self.old name.now) (λ bytes. most < length bytes) }
        ensures refused { OnErr result (into.new.items ≡ into.old.items) };
}

// Keeps a name, where there is room for it.
pub(crate) fn keep_name(alloc: Global, kept: &mut Vec<String>, name: &str) -> Result<(), LoadFault>
    ensures kept { OnOk result (names kept.new.items ≡ names kept.old.items ++ name.now ∷ []) }
    ensures refused { OnErr result (kept.new.items ≡ kept.old.items) }
    ensures fault { IfErr result (λ fault. fault ≡ LoadFault.Memory) }
{
    let name = String::from_str(alloc, name).map_err(|_| LoadFault::Memory)?;
    kept.push(name).map_err(|_| LoadFault::Memory)
}

// Keeps the name of a load that failed. The answer is `Memory` where there is no room for it.
pub(crate) fn keep_failed(alloc: Global, failed: &mut Vec<String>, name: &str) -> LoadFault
    ensures names { names failed.new.items ≡ names failed.old.items ++ named_by result name.now }
    ensures fault { (result ≡ LoadFault.Failed) ⊎ (result ≡ LoadFault.Memory) }
{
    match keep_name(alloc, failed, name) {
        Ok(()) => LoadFault::Failed,
        Err(fault) => fault,
    }
}
