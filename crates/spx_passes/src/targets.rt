// The variables that items set.
ghost use Rattle.std.specs.Prelude.{◌≡◌, ◌||◌, [], IfOk, OnOk};
ghost use Rattle.spx_core.specs.declared.entity.VarId.{VarId};
ghost use Rattle.spx_core.specs.Effects.{sets};
ghost use Rattle.spx_core.specs.Uses.{is_same};
ghost use Rattle.spx_core.specs.Mirror.VarSets.{holds};
ghost use Rattle.spx_lower.specs.Meaning.{effect_in, effect_of};
ghost use Rattle.spx_passes.specs.Targets.{arms_set, parameter_of, positions_in};

use crate::positions::add_position;
use indexmap::IndexSet;
use spx_core::{VarId, VarSet};
use spx_lower::{Arm, Head, Item};
use std::alloc::{AllocError, Global};
use std::marker::Model;

/// Variables, each once, by their position in the program's list. The table is in a box, which costs less at an exit.
#[derive(Drop)]
pub struct Targets {
    numbers: Box<IndexSet<usize>>,
}

impl Model for Targets {
    ghost use Rattle.spx_passes.specs.Targets.{Numbers};

    ghost Value = { Numbers };

    ghost view = { λ targets. record { keys = targets.numbers.value.keys } };
}

impl Targets {
    /// No variables.
    pub(crate) fn new(alloc: Global) -> Result<Targets, AllocError>
        ensures { IfOk result (λ targets. targets.keys ≡ []) }
    {
        let numbers = Box::new(alloc, IndexSet::new(alloc))?;
        Ok(Targets { numbers })
    }

    /// Their positions.
    pub fn as_slice(&self) -> &[usize]
        ensures { result.now ≡ self.now.keys }
    {
        self.numbers.as_slice()
    }
}

/// Adds the variable, if there is one.
fn add_target(found: &mut Targets, target: Option<VarId>) -> Result<(), AllocError>
    ensures { OnOk result ((v : VarId) → holds found.new.keys v ≡ (is_same v target || holds found.old.keys v)) }
{
    match target {
        Some(var) => {
            found.numbers.insert(var.0)?;
            Ok(())
        }
        None => Ok(()),
    }
}

/// The parameter of a loop, if it has one.
fn parameter_of(head: &Head) -> Option<VarId>
    ensures { result ≡ parameter_of head.now }
{
    match head {
        Head::Tested(_, _) => None,
        Head::Counted(parameter, _, _) => Some(*parameter),
        Head::Endless => None,
    }
}

/// Adds the variables that the item sets.
#[cycle(add_targets)]
fn add_targets(item: &Item, found: &mut Targets) -> Result<(), AllocError>
    ensures { OnOk result ((v : VarId) → holds found.new.keys v ≡ (sets v (effect_of item.now) || holds found.old.keys v)) }
{
    match item {
        Item::Nothing => Ok(()),
        Item::Assign(assignment) => add_target(found, assignment.get().target),
        Item::Observe(_) => Ok(()),
        Item::Branch(_, arms, _, otherwise) => {
            add_all_targets(otherwise.get().as_slice(), found)?;
            add_targets_of_arms(arms.get().as_slice(), found)
        }
        Item::Loop(head, body) => {
            add_all_targets(body.as_slice(), found)?;
            add_target(found, parameter_of(head.get()))
        }
    }
}

/// Adds the variables that the arms set.
#[cycle(add_targets)]
fn add_targets_of_arms(arms: &[Arm], found: &mut Targets) -> Result<(), AllocError>
    ensures { OnOk result ((v : VarId) → holds found.new.keys v ≡ (arms_set v arms.now || holds found.old.keys v)) }
{
    for arm in arms {
        add_all_targets(arm.body.as_slice(), found)?;
    }
    Ok(())
}

/// Adds the variables that the items set.
#[cycle(add_targets)]
pub(crate) fn add_all_targets(items: &[Item], found: &mut Targets) -> Result<(), AllocError>
    ensures { OnOk result ((v : VarId) → holds found.new.keys v ≡ (sets v (effect_in items.now) || holds found.old.keys v)) }
{
    for item in items {
        add_targets(item, found)?;
    }
    Ok(())
}

/// The variables that the items set.
pub fn all_targets(alloc: Global, items: &[Item]) -> Result<Targets, AllocError>
    ensures { IfOk result (λ found. (v : VarId) → holds found.keys v ≡ sets v (effect_in items.now)) }
{
    let mut found = Targets::new(alloc)?;
    add_all_targets(items, &mut found)?;
    Ok(found)
}

/// The positions of those that are in the set.
pub(crate) fn target_positions(
    alloc: Global,
    vars: &VarSet,
    targets: &Targets,
) -> Result<Vec<usize>, AllocError>
    ensures { IfOk result (λ found. found.items ≡ positions_in vars.now targets.now.keys) }
{
    let mut found = Vec::new(alloc);
    for number in targets.as_slice() {
        add_position(vars, VarId(*number), &mut found)?;
    }
    Ok(found)
}
