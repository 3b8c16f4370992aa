// Files in memory, of which some loads are to fail.
ghost use Rattle.std.specs.Prelude.{◌≡◌, ◌<◌, ◌++◌, ◌∷◌, ◌+◌, ◌-◌, ◌^◌, ◌⊎◌, min, ℕ, List, [], length, take, option_map, IfSome, OnOk, OnErr, IsErrOf};
ghost use Rattle.spx_text.specs.Loads.{names, failed_by, Appends};
ghost use Rattle.spx_text.specs.Held.{bytes_held, IsToFail};

use crate::files::{keep_failed, keep_name};
use crate::{Files, LoadFault};
use std::alloc::Global;

/// A file in memory.
#[derive(Drop)]
pub struct HeldFile {
    pub name: String,
    pub bytes: Vec<u8>,
}

/// Files in memory. A load fails exactly where the list says so and at a name that is not held, running out of memory aside.
#[derive(Drop)]
pub struct MemFiles {
    pub alloc: Global,
    /// Of two files of one name the first counts.
    pub held: Vec<HeldFile>,
    /// How many loads there were. At the end of its type it stands still.
    pub calls: u64,
    /// The loads that are to fail, the first being 0.
    pub failing: Vec<u64>,
    /// The names that were asked for, the oldest first.
    pub asked: Vec<String>,
    /// The names whose loads failed, the oldest first.
    pub failed: Vec<String>,
}

impl MemFiles {
    /// These files; the loads whose numbers, from 0, are in `failing` fail.
    pub fn new(alloc: Global, held: Vec<HeldFile>, failing: Vec<u64>) -> Self
        ensures held { result.held.items ≡ held.items }
        ensures failing { result.failing.items ≡ failing.items }
        ensures asked { result.asked.items ≡ [] }
        ensures failed { result.failed.items ≡ [] }
        ensures calls { result.calls ≡ 0 }
    {
        MemFiles {
            alloc,
            held,
            calls: 0,
            failing,
            asked: Vec::new(alloc),
            failed: Vec::new(alloc),
        }
    }
}

pub(crate) fn find<'a>(held: &'a [HeldFile], name: &str) -> Option<&'a [u8]>
    ensures { option_map (λ bytes. bytes.now) result ≡ bytes_held held.now name.now }
{
    for file in held {
        if file.name.as_str() == name {
            return Some(file.bytes.as_slice());
        }
    }
    None
}

impl Files for MemFiles {
    ghost known = { λ files name. bytes_held files.held.items name };

    ghost asked = { λ files. names files.asked.items };

    ghost failed = { λ files. names files.failed.items };

    // Running out of memory aside, it fails exactly at the calls in the list, and at a name that is not held.
    fn load(&mut self, name: &str, into: &mut Vec<u8>, most: usize) -> Result<(), LoadFault>
        ensures known { (n : List ℕ) → bytes_held self.new.held.items n ≡ bytes_held self.old.held.items n }
        ensures asked { (IsErrOf result LoadFault.Memory → ⊥) → names self.new.asked.items ≡ names self.old.asked.items ++ name.now ∷ [] }
        ensures grown { (names self.new.asked.items ≡ names self.old.asked.items) ⊎ (names self.new.asked.items ≡ names self.old.asked.items ++ name.now ∷ []) }
        ensures failed { names self.new.failed.items ≡ names self.old.failed.items ++ failed_by result name.now }
        ensures kept { OnOk result (take (length into.old.items) into.new.items ≡ into.old.items) }
        ensures loaded { OnOk result (IfSome (bytes_held self.old.held.items name.now) (Appends most into.old.items into.new.items)) }
        ensures too_long { IsErrOf result LoadFault.TooLong → IfSome (bytes_held self.old.held.items name.now) (λ bytes. most < length bytes) }
        ensures refused { OnErr result (into.new.items ≡ into.old.items) }
        ensures fails { IsErrOf result LoadFault.Failed → IsToFail self.old name.now }
        ensures must_fail { IsToFail self.old name.now → IsErrOf result LoadFault.Failed ⊎ IsErrOf result LoadFault.Memory }
        ensures calls { self.new.calls ≡ min (self.old.calls + 1) (2 ^ 64 - 1) }
        ensures plan { (self.new.failing ≡ self.old.failing) × (self.new.held ≡ self.old.held) }
    {
        let call = self.calls;
        self.calls = call.saturating_add(1);
        keep_name(self.alloc, &mut self.asked, name)?;
        if self.failing.contains(&call) {
            return Err(keep_failed(self.alloc, &mut self.failed, name));
        }
        match find(self.held.as_slice(), name) {
            None => Err(keep_failed(self.alloc, &mut self.failed, name)),
            Some(bytes) if bytes.len() > most => Err(LoadFault::TooLong),
            Some(bytes) => into.extend_from_slice(bytes).map_err(|_| LoadFault::Memory),
        }
    }
}
