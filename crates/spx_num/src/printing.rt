// Numbers as text.
ghost use Rattle.std.specs.Prelude.{◌≡◌, IfOk};
ghost use Rattle.std.specs.Fmt.{signed_decimal};

use std::alloc::{AllocError, Global};

/// The decimal digits of a number, with `-` before those of one below 0.
pub fn decimal(alloc: Global, value: i128) -> Result<Vec<u8>, AllocError>
    ensures { IfOk result (λ text. text.items ≡ signed_decimal value) }
{
    Ok(format!(in alloc; "{value}")?.into_bytes())
}
