// The declarations of one region (Ada 95 RM 8.1).
ghost use Rattle.std.specs.Prelude.{◌≡◌, [], Some, IfOk, OnOk, OnErr, length, take};
ghost use Rattle.spx_core.specs.Regions.{declared_in, with_declaration};

use indexmap::IndexMap;
use spx_core::Entity;
use spx_text::Text;
use std::alloc::{AllocError, Global};
use std::marker::Model;

/// The declarations of a region, in order. A look-up takes the time of one hash. The table is in a box, which costs less at
/// an exit.
#[derive(Drop)]
pub struct Region {
    names: Box<IndexMap<Text, Option<Entity>>>,
}

impl Model for Region {
    ghost use Rattle.spx_core.specs.Regions.{Region};
    ghost use Rattle.spx_scope.specs.Entries.{declarations};

    ghost Value = { Region };

    ghost view = { λ region. declarations region.names.value.entries };
}

impl Region {
    /// No declarations.
    pub fn new(alloc: Global) -> Result<Region, AllocError>
        ensures { IfOk result (λ region. region ≡ []) }
    {
        let names = Box::new(alloc, IndexMap::new(alloc))?;
        Ok(Region { names })
    }

    /// What a name denotes by a declaration of this region, if there is one.
    pub fn get(&self, name: &Text) -> Option<Option<Entity>>
        ensures { result ≡ declared_in self.now name.now }
    {
        self.names.get(name).copied()
    }

    /// How many declarations there are.
    pub fn len(&self) -> usize
        ensures { result ≡ length self.now }
    {
        self.names.len()
    }

    /// Takes back all declarations but the first so many.
    pub fn truncate(&mut self, count: usize)
        ensures { self.new ≡ take count self.old }
    {
        self.names.truncate(count);
    }

    /// One more declaration, unless the region has one of the name.
    pub fn declare(&mut self, name: Text, entity: Entity) -> Result<(), AllocError>
        ensures ok { OnOk result (self.new ≡ with_declaration (record { word = name; entity = Some entity }) self.old) }
        ensures err { OnErr result (self.new ≡ self.old) }
    {
        let None = self.get(&name) else {
            return Ok(());
        };
        self.names.insert(name, Some(entity))?;
        Ok(())
    }
}
