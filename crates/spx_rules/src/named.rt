// Sets of the variables that names denote.
ghost use Rattle.std.specs.Prelude.{◌≡◌, ◌&&◌, ◌||◌, ◌++◌, not, List, IfOk, OnOk};
ghost use Rattle.std.specs.List.{list_any};
ghost use Rattle.spx_core.specs.declared.entity.VarId.{VarId};
ghost use Rattle.spx_core.specs.declared.name.Reference.{Reference};
ghost use Rattle.spx_core.specs.Uses.{denotes, mentions};
ghost use Rattle.spx_core.specs.Mirror.VarSets.{holds};
ghost use Rattle.spx_rules.specs.NamedOnce as named;

use spx_core::{Reference, VarSet, variable_of};
use std::alloc::{AllocError, Global};

/// Whether the name denotes a variable of the set.
fn is_in(set: &VarSet, name: &Reference) -> bool
    ensures { result ≡ named.is_in (holds set.now) name.now }
{
    variable_of(name.root.entity).is_some_and(|var| set.contains(var))
}

/// Whether one of the names denotes a variable of the set.
pub fn any_in(set: &VarSet, names: &[Reference]) -> bool
    ensures { result ≡ list_any (named.is_in (holds set.now)) names.now }
{
    names.iter().any(|name| is_in(set, name))
}

/// Adds the variable that a name denotes, if it denotes one.
fn insert_named(set: &mut VarSet, name: &Reference) -> Result<(), AllocError>
    ensures { OnOk result ((v : VarId) → holds set.new v ≡ (denotes v name.now.root || holds set.old v)) }
{
    match variable_of(name.root.entity) {
        Some(var) => set.insert(var),
        None => Ok(()),
    }
}

/// Adds the variables that the names denote, up to the first that is in the set already. Answers whether there is none.
pub fn insert_new(set: &mut VarSet, names: &[Reference]) -> Result<bool, AllocError>
    ensures { IfOk result (λ fresh. (rest : List Reference) → named.all_new (holds set.old) (names.now ++ rest) ≡ (fresh && named.all_new (holds set.new) rest)) }
{
    for name in names {
        if is_in(set, name) {
            return Ok(false);
        }
        insert_named(set, name)?;
    }
    Ok(true)
}

/// The variables that the names denote.
pub fn variables(alloc: Global, names: &[Reference]) -> Result<VarSet, AllocError>
    ensures { IfOk result (λ set. (v : VarId) → holds set v ≡ mentions v names.now) }
{
    let mut set = VarSet::new(alloc)?;
    for name in names {
        insert_named(&mut set, name)?;
    }
    Ok(set)
}
