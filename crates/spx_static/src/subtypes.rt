// The subtypes that names denote.
ghost use Rattle.std.specs.Prelude.{◌≡◌};
ghost use Rattle.spx_core.specs.DeclaredNames.{subtype_of};

use spx_core::{Entity, Subtype, UNIVERSAL};

/// The subtype that a name denotes. What denotes none counts as that of universal numbers.
pub fn subtype_of(entity: Option<Entity>) -> Subtype
    ensures { result ≡ subtype_of entity }
{
    match entity {
        Some(Entity::TypeName(subtype)) => subtype,
        _ => UNIVERSAL,
    }
}
