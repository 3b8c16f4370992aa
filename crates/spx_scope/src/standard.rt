// What is declared everywhere (Ada 95 RM A.1).
ghost use Rattle.std.specs.Prelude.{◌≡◌, Some, OnOk};
ghost use Rattle.spx_core.specs.Regions.{standard, with_declaration};

use crate::Region;
use spx_core::{BOOLEAN, Entity, INTEGER, NATURAL, POSITIVE};
use spx_text::Text;
use std::alloc::{AllocError, Global};

/// The predefined names.
#[derive(Drop)]
pub struct Standard {
    region: Region,
    ghost is_standard: { region ≡ standard },
}

/// Declares a predefined name.
fn declare(
    alloc: Global,
    region: &mut Region,
    name: &[u8],
    entity: Entity,
) -> Result<(), AllocError>
    ensures { OnOk result (region.new ≡ with_declaration (record { word = name.now; entity = Some entity }) region.old) }
{
    region.declare(Text::new(alloc, name)?, entity)
}

impl Standard {
    /// The region of the predefined names.
    #[tactic(auto, unfolding(spx_core::specs::Regions::standard))]
    pub fn new(alloc: Global) -> Result<Standard, AllocError> {
        let mut region = Region::new(alloc)?;
        declare(alloc, &mut region, b"Boolean", Entity::TypeName(BOOLEAN))?;
        declare(alloc, &mut region, b"False", Entity::Literal(BOOLEAN, 0))?;
        declare(alloc, &mut region, b"True", Entity::Literal(BOOLEAN, 1))?;
        declare(alloc, &mut region, b"Integer", Entity::TypeName(INTEGER))?;
        declare(alloc, &mut region, b"Natural", Entity::TypeName(NATURAL))?;
        declare(alloc, &mut region, b"Positive", Entity::TypeName(POSITIVE))?;
        Ok(Standard { region })
    }

    /// What they are declared as.
    pub fn region(&self) -> &Region
        ensures { result.now ≡ standard }
    {
        &self.region
    }
}
