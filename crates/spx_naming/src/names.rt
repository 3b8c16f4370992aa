// Names that are declared (Ada 95 RM 3.1, 8.3).
ghost use Rattle.std.specs.Prelude.{◌≡◌, ◌<◌, ◌^◌, IfOk};
ghost use Rattle.spx_core.specs.DeclaredNames.{declaring, declaring_all, defining, defining_all};

use spx_core::{Defining, Entity, Meaning};
use spx_scope::{Region, Scope};
use spx_tree::Identifier;
use sqlite_items::Items;
use std::alloc::{AllocError, Global};

/// Declares a name.
pub fn declare(
    alloc: Global,
    region: &mut Region,
    outer: &Scope<'_>,
    entity: Entity,
    name: &Identifier,
) -> Result<Defining, AllocError>
    ensures { IfOk result (λ d. (d ≡ defining region.old entity name.now) × (region.new ≡ declaring region.old d)) }
{
    let again = region.get(&name.text).is_some() || outer.is_predefined(&name.text);
    region.declare(name.text.copy(alloc)?, entity)?;
    Ok(Defining {
        name: name.copy(alloc)?,
        entity,
        again,
    })
}

/// Declares the names of one declaration, the first of which has this position.
pub fn declare_all(
    alloc: Global,
    region: &mut Region,
    outer: &Scope<'_>,
    meaning: Meaning,
    first: usize,
    names: &[Identifier],
) -> Result<Items<Defining>, AllocError>
    requires { first < 2 ^ 63 }
    ensures { IfOk result (λ ds. (ds ≡ defining_all region.old meaning first names.now) × (region.new ≡ declaring_all region.old ds)) }
{
    let mut defined = Items::new(alloc);
    let mut position = first;
    for name in names {
        let entity = meaning.at(position);
        defined.push(declare(alloc, region, outer, entity, name)?)?;
        position += 1;
    }
    Ok(defined)
}
