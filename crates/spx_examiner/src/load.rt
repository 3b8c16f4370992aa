// The files, loaded in order up to the first refusal.
ghost use Rattle.std.specs.Prelude.{◌≡◌, ℕ, List, IsErrOf, IfOk};
ghost use Rattle.spx_text.specs.Loads.{names};
ghost use Rattle.spx_examiner.specs.Causes.{AllLoaded, AreTooLong, AskedForFirst, EndsAtFailure, EndsAtLongFile, MayHold, contents_of};

use spx_text::{Files, LoadFault};
use std::alloc::Global;

/// The greatest number of bytes of one file.
pub const MOST_BYTES: usize = 4_194_304;

/// The bytes of each of the files, in order.
pub fn load_all<F: Files>(
    alloc: Global,
    words: &[String],
    files: &mut F,
) -> Result<Vec<Vec<u8>>, LoadFault>
    ensures loaded { IfOk result (λ all. MayHold (F.known files.old) (names words.now) (contents_of all.items)) }
    ensures too_long { IsErrOf result LoadFault.TooLong → (contents : List (List ℕ)) × MayHold (F.known files.old) (names words.now) contents × AreTooLong contents }
    // The names are asked for in their order, up to the first refusal.
    ensures all { IfOk result (λ _. AllLoaded (F.known files.old) (names words.now) (F.asked files.old) (F.asked files.new)) }
    ensures long { IsErrOf result LoadFault.TooLong → EndsAtLongFile (F.known files.old) (names words.now) (F.asked files.old) (F.asked files.new) }

    ensures first { IsErrOf result LoadFault.Memory → AskedForFirst (names words.now) (F.asked files.old) (F.asked files.new) }

    // Nothing that is known is changed.
    ensures known { (name : List ℕ) → F.known files.new name ≡ F.known files.old name }
    ensures failed { IsErrOf result LoadFault.Failed → EndsAtFailure (F.known files.old) (names words.now) (F.asked files.old) (F.asked files.new) (F.failed files.old) (F.failed files.new) }
    ensures none_failed { (IsErrOf result LoadFault.Failed → ⊥) → F.failed files.new ≡ F.failed files.old }
{
    let mut loaded = Vec::new(alloc);
    for word in words {
        let mut bytes = Vec::new(alloc);
        files.load(word.as_str(), &mut bytes, MOST_BYTES)?;
        if loaded.push(bytes).is_err() {
            return Err(LoadFault::Memory);
        }
    }
    Ok(loaded)
}
