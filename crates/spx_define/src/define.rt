// Reads of variables that may be unset (Bergeretti and Carré, TOPLAS 1985).
ghost use Rattle.std.specs.Prelude.{◌≡◌, ◌≢◌, ◌<◌, ◌&&◌, [], ◌∷◌, Some, is_some, length, not, filter, map, slice_get, IfOk, OnOk};
ghost use Rattle.std.specs.List.{AllPairs};
ghost use Rattle.std.specs.Option.{option_to_list};
ghost use Rattle.spx_text.specs.declared.place.Place.{Place};
ghost use Rattle.spx_core.specs.declared.entity.VarId.{VarId};
ghost use Rattle.spx_core.specs.declared.subprogram.Sub.{Sub};
ghost use Rattle.spx_core.specs.Effects.{count, effects, reads_in};
ghost use Rattle.spx_lower.specs.Meaning.{arm_of, branch, effect_in, effect_of, ended, loop_over};
ghost use Rattle.spx_core.specs.Formals.{initial_of};
ghost use Rattle.spx_core.specs.Uses.{is_same};
ghost use Rattle.spx_core.specs.Mirror.VarSets.{holds};
ghost use Rattle.spx_define.specs.declared.reached.Reached.{Reached};
ghost use Rattle.spx_define.specs.Passes.{Finds, Passes, PassesBefore, exports_at, is_unset, read_at, reads_at};
ghost use Rattle.spx_define.specs.UnsetReads.{AreUnsetReads};

use crate::reached::Reached;
use indexmap::IndexSet;
use spx_core::{
    CoreDerivesItem, Entity, Program, Reference, Sub, SubId, VarId, VarKind, VarSet, variable_of,
};
use spx_lower::{Arm, Head, Item, Read, lower};
use spx_text::Place;
use sqlite_items::{Boxed, Items};
use std::alloc::{AllocError, Global};

/// Reads of variables, at the place of the name.
type Reads = IndexSet<(Place, VarId)>;

fn add_unset_variable(
    here: &Reached,
    place: Place,
    var: VarId,
    found: &mut Reads,
) -> Result<(), AllocError>
    ensures { OnOk result (Finds here.now ((place, var) ∷ []) found.old.keys found.new.keys) }
{
    if here.is_unset(var) {
        found.insert((place, var))?;
    }
    Ok(())
}

/// Adds a read of what is denoted, if it is a variable that may be unset.
fn add_unset(
    here: &Reached,
    place: Place,
    entity: Option<Entity>,
    found: &mut Reads,
) -> Result<(), AllocError>
    ensures { OnOk result (Finds here.now (option_to_list (read_at place entity)) found.old.keys found.new.keys) }
{
    match variable_of(entity) {
        Some(var) => add_unset_variable(here, place, var, found),
        None => Ok(()),
    }
}

fn add_unset_read(here: &Reached, read: &Read, found: &mut Reads) -> Result<(), AllocError>
    ensures { OnOk result (Finds here.now (read.now ∷ []) found.old.keys found.new.keys) }
{
    add_unset_variable(here, read.0, read.1, found)
}

/// Adds what is read of variables that may be unset.
fn add_unset_reads(here: &Reached, reads: &[Read], found: &mut Reads) -> Result<(), AllocError>
    ensures { OnOk result (Finds here.now reads.now found.old.keys found.new.keys) }
{
    for k in 0..reads.len() {
        add_unset_read(here, &reads[k], found)?;
    }
    Ok(())
}

/// Adds what the bounds of a loop read of variables that may be unset, where they are written.
fn add_unset_bounds(
    here: &Reached,
    bounds: &Option<Items<Read>>,
    found: &mut Reads,
) -> Result<(), AllocError>
    ensures { OnOk result (Finds here.now (reads_in bounds.now) found.old.keys found.new.keys) }
{
    match bounds {
        None => Ok(()),
        Some(reads) => add_unset_reads(here, reads.as_slice(), found),
    }
}

fn add_unset_references(
    here: &Reached,
    place: Place,
    names: &[Reference],
    found: &mut Reads,
) -> Result<(), AllocError>
    ensures { OnOk result (Finds here.now (reads_at place names.now) found.old.keys found.new.keys) }
{
    for name in names {
        add_unset(here, place, name.root.entity, found)?;
    }
    Ok(())
}

/// Adds each export that may be unset, at the place.
fn add_unset_exports(
    here: &Reached,
    place: Place,
    items: &[CoreDerivesItem],
    found: &mut Reads,
) -> Result<(), AllocError>
    ensures { OnOk result (Finds here.now (exports_at place items.now) found.old.keys found.new.keys) }
{
    for item in items {
        add_unset_references(here, place, item.exports.as_slice(), found)?;
    }
    Ok(())
}

/// The variable that is assigned to is set from here on.
fn set_target(here: &mut Reached, target: Option<VarId>) -> Result<(), AllocError>
    ensures { OnOk result ((v : VarId) → is_unset here.new v ≡ (not (is_same v target) && is_unset here.old v)) }
{
    match target {
        Some(var) => here.insert(var),
        None => Ok(()),
    }
}

/// Goes over an item. A variable is set only after the right side is read, after a branch only where each arm that goes on sets
/// it, and after a loop only where each way out of it does. `exits` are the ways to where the loop around the item is left.
#[cycle(go_over)]
fn go_over(
    alloc: Global,
    item: &Item,
    here: &mut Reached,
    exits: &mut Reached,
    found: &mut Reads,
) -> Result<(), AllocError>
    ensures { OnOk result (Passes (effect_of item.now) here.old here.new exits.old exits.new found.old.keys found.new.keys) }
{
    match item {
        Item::Nothing => Ok(()),
        Item::Assign(assignment) => {
            let assignment = assignment.get();
            add_unset_reads(here, assignment.reads.as_slice(), found)?;
            set_target(here, assignment.target)
        }
        Item::Observe(reads) => add_unset_reads(here, reads.as_slice(), found),
        Item::Branch(selector, arms, last, otherwise) => {
            let selector = selector.get().as_slice();
            let otherwise = otherwise.get().as_slice();
            let mut ends = go_over_otherwise(alloc, otherwise, selector, last, here, exits, found)?;
            let arms = arms.get().as_slice();
            go_over_arms(alloc, arms, selector, here, &mut ends, exits, found)?;
            *here = ends;
            Ok(())
        }
        Item::Loop(head, body) => go_over_loop(alloc, body.as_slice(), head.get(), here, found),
    }
}

/// Goes over what is done where no test is true.
#[cycle(go_over)]
fn go_over_otherwise(
    alloc: Global,
    items: &[Item],
    selector: &[Read],
    last: &Option<Boxed<Place>>,
    here: &Reached,
    exits: &mut Reached,
    found: &mut Reads,
) -> Result<Reached, AllocError>
    ensures { IfOk result (λ ends. Passes (ended selector.now last.now (effect_in items.now)) here.now ends exits.old exits.new found.old.keys found.new.keys) }
{
    let mut ends = here.copy(alloc)?;
    match last {
        None => {
            go_over_all(alloc, items, &mut ends, exits, found)?;
            Ok(ends)
        }
        Some(_) => {
            add_unset_reads(here, selector, found)?;
            go_over_all(alloc, items, &mut ends, exits, found)?;
            Ok(ends)
        }
    }
}

/// Goes over an arm: `ends` are the ways to the end where its test fails, and then to the end of both. An arm that ends with an
/// exit goes on to where the loop is left.
#[cycle(go_over)]
fn go_over_arm(
    alloc: Global,
    arm: &Arm,
    selector: &[Read],
    here: &Reached,
    ends: &mut Reached,
    exits: &mut Reached,
    found: &mut Reads,
) -> Result<(), AllocError>
    ensures { OnOk result (PassesBefore (λ otherwise. branch selector.now otherwise (arm_of arm.now ∷ [])) here.now ends.old ends.new exits.old exits.new found.old.keys found.new.keys) }
{
    add_unset_reads(here, arm.reads.as_slice(), found)?;
    add_unset_reads(here, selector, found)?;
    let mut end = here.copy(alloc)?;
    let body = arm.body.as_slice();
    if arm.is_exit {
        let mut inner = Reached::NoWay;
        go_over_all(alloc, body, &mut end, &mut inner, found)?;
        *exits = exits.joined(alloc, &end)?;
        Ok(())
    } else {
        go_over_all(alloc, body, &mut end, exits, found)?;
        *ends = ends.joined(alloc, &end)?;
        Ok(())
    }
}

/// Goes over the arms from the last to the first: `ends` are the ways to the end of what is done where all tests are false, and
/// then also those to the end of each arm.
#[cycle(go_over)]
fn go_over_arms(
    alloc: Global,
    arms: &[Arm],
    selector: &[Read],
    here: &Reached,
    ends: &mut Reached,
    exits: &mut Reached,
    found: &mut Reads,
) -> Result<(), AllocError>
    ensures { OnOk result (PassesBefore (λ otherwise. branch selector.now otherwise (map arm_of arms.now)) here.now ends.old ends.new exits.old exits.new found.old.keys found.new.keys) }
{
    for k in (0..arms.len()).rev() {
        go_over_arm(alloc, &arms[k], selector, here, ends, exits, found)?;
    }
    Ok(())
}

/// Goes over a loop: what stands at its head, and one turn of its body, since later turns find nothing that the first does
/// not. Past a `while` all is as it was before, since no turn need be run, and past a loop with no head is what its exits
/// lead to. A parameter is set in the turns. Between bounds that are written no turn need be run, and else there is one, which
/// ends or is left; after the loop it is set only where it was set before. A loop leaves no loop around it.
#[cycle(go_over)]
fn go_over_loop(
    alloc: Global,
    body: &[Item],
    head: &Head,
    here: &mut Reached,
    found: &mut Reads,
) -> Result<(), AllocError>
    ensures { OnOk result ((exits : Reached) → Passes (loop_over head.now (effect_in body.now)) here.old here.new exits exits found.old.keys found.new.keys) }
{
    match head {
        Head::Tested(reads, _) => {
            add_unset_reads(here, reads.as_slice(), found)?;
            let mut turn = here.copy(alloc)?;
            let mut left = Reached::NoWay;
            go_over_all(alloc, body, &mut turn, &mut left, found)
        }
        Head::Counted(parameter, bounds, _) => {
            go_over_count(alloc, body, *parameter, bounds, here, found)
        }
        Head::Endless => {
            let mut left = Reached::NoWay;
            go_over_all(alloc, body, here, &mut left, found)?;
            *here = left;
            Ok(())
        }
    }
}

/// Goes over a loop over a parameter.
#[cycle(go_over)]
fn go_over_count(
    alloc: Global,
    body: &[Item],
    parameter: VarId,
    bounds: &Option<Items<Read>>,
    here: &mut Reached,
    found: &mut Reads,
) -> Result<(), AllocError>
    ensures { OnOk result ((place : Place) (exits : Reached) → Passes (count parameter bounds.now (effect_in body.now) place) here.old here.new exits exits found.old.keys found.new.keys) }
{
    add_unset_bounds(here, bounds, found)?;
    let mut turn = here.copy(alloc)?;
    let mut left = Reached::NoWay;
    turn.insert(parameter)?;
    go_over_all(alloc, body, &mut turn, &mut left, found)?;
    match bounds {
        None => {
            let ends = turn.joined(alloc, &left)?;
            here.go_past(parameter, &ends)
        }
        Some(_) => Ok(()),
    }
}

#[cycle(go_over)]
fn go_over_all(
    alloc: Global,
    items: &[Item],
    here: &mut Reached,
    exits: &mut Reached,
    found: &mut Reads,
) -> Result<(), AllocError>
    ensures { OnOk result (Passes (effect_in items.now) here.old here.new exits.old exits.new found.old.keys found.new.keys) }
{
    for item in items {
        go_over(alloc, item, here, exits, found)?;
    }
    Ok(())
}

/// Whether the variable is declared with a value.
fn has_initial_value(program: &Program, var: VarId) -> bool
    ensures { result ≡ is_some (initial_of var program.now) }
{
    match program.vars.as_slice().get(var.0) {
        Some(declared) => match declared.kind {
            VarKind::Formal(_) => false,
            VarKind::Local => false,
            VarKind::Initialized(_) => true,
            VarKind::LoopParameter => false,
        },
        None => false,
    }
}

/// Takes out the reads of variables that are declared with a value.
fn leave_out_initialized(program: &Program, found: &mut Reads)
    ensures { found.new.keys ≡ filter (λ read. not (is_some (initial_of read.1 program.now))) found.old.keys }
{
    found.retain(|read| !has_initial_value(program, read.1));
}

/// What was found of variables that are not imports, in its order.
fn listed(alloc: Global, imports: &VarSet, found: &Reads) -> Result<Vec<(Place, VarId)>, AllocError>
    ensures items { IfOk result (λ reads. reads.items ≡ filter (λ read. not (holds imports.now read.1)) found.now.keys) }
    ensures once { AllPairs (λ a b. a ≢ b) found.now.keys }
{
    found
        .as_slice()
        .iter()
        .copied()
        .filter(|read| !imports.contains(read.1))
        .collect(alloc)
}

/// The reads of variables that may be unset in a body that is these items, which are gathered in `found`, an empty set.
fn gather_unset_reads(
    alloc: Global,
    program: &Program,
    sub: &Sub,
    items: &[Item],
    found: &mut Reads,
) -> Result<Vec<(Place, VarId)>, AllocError>
    requires items { effect_in items.now ≡ effects sub.now.statements }
    requires none { found.old.keys ≡ [] }
    ensures { IfOk result (λ reads. AreUnsetReads program.now sub.now reads.items) }
{
    let imports = VarSet::imports(alloc, sub)?;
    let mut here = Reached::start(alloc)?;
    let mut exits = Reached::NoWay;
    go_over_all(alloc, items, &mut here, &mut exits, found)?;
    leave_out_initialized(program, found);
    add_unset_exports(&here, sub.end, sub.relation(), found)?;
    listed(alloc, &imports, found)
}

/// The unset reads of a subprogram whose body is these items.
pub fn unset_reads_in(
    alloc: Global,
    program: &Program,
    sub: &Sub,
    items: &[Item],
) -> Result<Vec<(Place, VarId)>, AllocError>
    requires { effect_in items.now ≡ effects sub.now.statements }
    ensures { IfOk result (λ found. AreUnsetReads program.now sub.now found.items) }
{
    let mut found = IndexSet::new(alloc);
    gather_unset_reads(alloc, program, sub, items, &mut found)
}

/// The reads of variables that may be unset, at the name, and the exports that may be left so, at the word `end`.
pub fn unset_reads(
    alloc: Global,
    program: &Program,
    id: SubId,
) -> Result<Vec<(Place, VarId)>, AllocError>
    requires { id.0 < length program.now.subs }
    ensures { (sub : Sub) → slice_get program.now.subs id.0 ≡ Some sub → IfOk result (λ found. AreUnsetReads program.now sub found.items) }
{
    let sub = &program.subs.as_slice()[id.0];
    let items = lower(alloc, sub.statements.as_slice())?;
    unset_reads_in(alloc, program, sub, items.as_slice())
}
