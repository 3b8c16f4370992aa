// The variables of which an annotation may name the value on entry (Barnes, `~`).
ghost use Rattle.std.specs.Prelude.{◌≡◌, IfOk};
ghost use Rattle.spx_core.specs.Dependency.{items_of};
ghost use Rattle.spx_core.specs.ResolvedExpressions.{is_changed_by};

use spx_core::{CoreDerives, CoreDerivesItem, CoreName, VarSet, variable_of};
use std::alloc::{AllocError, Global};
use std::marker::Model;

/// The imports and the exports of the items of a dependency relation.
#[derive(Drop)]
struct Ends {
    imports: VarSet,
    exports: VarSet,
}

/// The items of a dependency relation with the sets of their imports and exports. Contracts see the items.
#[derive(Drop)]
pub struct Changed<'a> {
    items: &'a [CoreDerivesItem],
    ends: Ends,
}

impl<'a> Model for Changed<'a> {
    ghost use Rattle.std.specs.Coded.{codes};
    ghost use Rattle.std.specs.Prelude.{List};
    ghost use Rattle.spx_tree.specs.contracts.expression.Expr as written;
    ghost use Rattle.spx_core.specs.declared.dependency.CoreDerivesItem.{CoreDerivesItem};
    ghost use Rattle.spx_naming.specs.Ends.{AreEndsOf};

    ghost Value = { List CoreDerivesItem };

    ghost coded = { Prim.hlevel (codes, written.the_row.coded) };

    ghost view = { λ c. c.items.now };

    ghost invariant = { λ c. AreEndsOf c.items.now c.ends.imports c.ends.exports };
}

/// The items of a relation, if there is one.
fn items_of(derives: &Option<CoreDerives>) -> &[CoreDerivesItem]
    ensures { result.now ≡ items_of derives.now }
{
    match derives {
        Some(derives) => derives.items.as_slice(),
        None => &[],
    }
}

impl<'a> Changed<'a> {
    /// What a relation changes.
    pub fn by(alloc: Global, derives: &'a Option<CoreDerives>) -> Result<Changed<'a>, AllocError>
        ensures { IfOk result (λ changed. changed ≡ items_of derives.now) }
    {
        let items = items_of(derives);
        let imports = VarSet::imported_by(alloc, items)?;
        let exports = VarSet::exported_by(alloc, items)?;
        let ends = Ends { imports, exports };
        Ok(Changed { items, ends })
    }

    /// Whether the name denotes a variable that is both imported and exported.
    pub fn has(&self, name: &CoreName) -> bool
        ensures { result ≡ is_changed_by self.now name.now }
    {
        match variable_of(name.entity) {
            Some(var) => self.ends.imports.contains(var) && self.ends.exports.contains(var),
            None => false,
        }
    }
}
