// From statements to what they do.
ghost use Rattle.std.specs.Prelude.{◌≡◌, IfOk, map};
ghost use Rattle.spx_core.specs.Commands.{Set, alternative, command, commands, exit_where, loop_of, select};
ghost use Rattle.spx_core.specs.Effects.{Effect, effect, effects};
ghost use Rattle.spx_lower.specs.Meaning.{arm_of, effect_in, effect_of, given_arm, given_body, given_loop, loop_over};
ghost use Rattle.spx_lower.specs.declared.item.Item.TheVariants.{Branch};

use crate::item::{Arm, Assignment, Head, Item, Read};
use crate::reads::{reads_assigned, reads_of, reads_of_bounds};
use spx_core::{
    CoreAlternative, CoreArm, CoreExpr, CoreScheme, CoreStmt, Target, has_own_exit, variable_of,
};
use spx_text::Place;
use sqlite_items::{Boxed, Items};
use std::alloc::{AllocError, Global};

/// How often the body of a loop runs.
fn lowered_head(alloc: Global, scheme: &CoreScheme) -> Result<Boxed<Head>, AllocError>
    ensures { IfOk result (λ head. (body : Effect) → loop_over head body ≡ given_loop scheme.now body) }
{
    match scheme {
        CoreScheme::While(place, condition) => {
            let reads = reads_of(alloc, condition.get())?;
            Boxed::new(alloc, Head::Tested(reads, *place))
        }
        CoreScheme::For(count) => {
            let count = count.get();
            let reads = reads_of_bounds(alloc, &count.bounds)?;
            Boxed::new(alloc, Head::Counted(count.parameter, reads, count.place))
        }
        CoreScheme::Endless => Boxed::new(alloc, Head::Endless),
    }
}

/// An assignment.
fn lowered_assignment(alloc: Global, target: &Target, value: &CoreExpr) -> Result<Item, AllocError>
    ensures { IfOk result (λ item. effect_of item ≡ effect (Set target.now value.now)) }
{
    let assignment = Assignment {
        target: variable_of(target.root.entity),
        reads: reads_assigned(alloc, target, value)?,
        place: target.root.name.place,
    };
    let assignment = Boxed::new(alloc, assignment)?;
    Ok(Item::Assign(assignment))
}

/// A branch.
fn boxed_branch(
    alloc: Global,
    selector: Items<Read>,
    arms: Items<Arm>,
    last: Option<Boxed<Place>>,
    otherwise: Items<Item>,
) -> Result<Item, AllocError>
    ensures { IfOk result (λ item. item ≡ Branch selector arms last otherwise) }
{
    let selector = Boxed::new(alloc, selector)?;
    let arms = Boxed::new(alloc, arms)?;
    let otherwise = Boxed::new(alloc, otherwise)?;
    Ok(Item::Branch(selector, arms, last, otherwise))
}

/// An exit with a condition is an arm that does nothing.
fn lowered_exit(
    alloc: Global,
    place: Place,
    condition: &Option<Boxed<CoreExpr>>,
) -> Result<Item, AllocError>
    ensures { IfOk result (λ item. effect_of item ≡ effect (exit_where place condition.now)) }
{
    match condition {
        None => Ok(Item::Nothing),
        Some(test) => {
            let reads = reads_of(alloc, test.get())?;
            let mut arms = Items::new(alloc);
            arms.push(Arm {
                place,
                reads,
                is_exit: true,
                body: Items::new(alloc),
            })?;
            boxed_branch(alloc, Items::new(alloc), arms, None, Items::new(alloc))
        }
    }
}

/// A statement.
#[cycle(lower)]
fn lowered(alloc: Global, stmt: &CoreStmt) -> Result<Item, AllocError>
    ensures { IfOk result (λ item. effect_of item ≡ effect (command stmt.now)) }
{
    match stmt {
        CoreStmt::Null(_) => Ok(Item::Nothing),
        CoreStmt::Assignment(target, value) => lowered_assignment(alloc, target.get(), value.get()),
        CoreStmt::If(arms, otherwise, _) => {
            let arms = lowered_arms(alloc, arms.as_slice())?;
            match otherwise {
                None => boxed_branch(alloc, Items::new(alloc), arms, None, Items::new(alloc)),
                Some(stmts) => {
                    let stmts = lower(alloc, stmts.as_slice())?;
                    boxed_branch(alloc, Items::new(alloc), arms, None, stmts)
                }
            }
        }
        CoreStmt::Case(place, selector, alternatives, _) => {
            lowered_case(alloc, alternatives.as_slice(), *place, selector.get())
        }
        CoreStmt::Loop(scheme, _, body, _) => { lowered_loop(alloc, body.as_slice(), scheme) }
        CoreStmt::Assertion(_, _, condition) => {
            let reads = reads_of(alloc, condition.get())?;
            Ok(Item::Observe(reads))
        }
        CoreStmt::Exit(place, condition) => lowered_exit(alloc, *place, condition),
    }
}

/// The arms of an `if`.
#[cycle(lower)]
fn lowered_arms(alloc: Global, arms: &[CoreArm]) -> Result<Items<Arm>, AllocError>
    ensures { IfOk result (λ made. map arm_of made ≡ map given_arm arms.now) }
{
    let mut made = Items::new(alloc);
    for arm in arms {
        let reads = reads_of(alloc, arm.condition.get())?;
        let arm = lowered_arm(alloc, arm.body.as_slice(), arm.place, reads)?;
        made.push(arm)?;
    }
    Ok(made)
}

/// An arm.
#[cycle(lower)]
fn lowered_arm(
    alloc: Global,
    stmts: &[CoreStmt],
    place: Place,
    reads: Items<Read>,
) -> Result<Arm, AllocError>
    ensures { IfOk result (λ arm. arm_of arm ≡ given_body place reads stmts.now) }
{
    let is_exit = has_own_exit(stmts);
    let body = lower(alloc, stmts)?;
    Ok(Arm {
        place,
        reads,
        is_exit,
        body,
    })
}

/// A `case`: the last alternative is what is done where no other is chosen, and the selector is read there too.
#[cycle(lower)]
fn lowered_case(
    alloc: Global,
    alternatives: &[CoreAlternative],
    place: Place,
    selector: &CoreExpr,
) -> Result<Item, AllocError>
    ensures { IfOk result (λ item. effect_of item ≡ effect (select place selector.now (map alternative alternatives.now))) }
{
    if alternatives.is_empty() {
        return Ok(Item::Nothing);
    }
    let last = alternatives.len() - 1;
    let mut arms = Items::new(alloc);
    for k in 0..last {
        let body = alternatives[k].body.as_slice();
        let arm = lowered_arm(alloc, body, place, Items::new(alloc))?;
        arms.push(arm)?;
    }
    let otherwise = lower(alloc, alternatives[last].body.as_slice())?;
    let reads = reads_of(alloc, selector)?;
    let here = Boxed::new(alloc, place)?;
    boxed_branch(alloc, reads, arms, Some(here), otherwise)
}

/// A loop.
#[cycle(lower)]
fn lowered_loop(alloc: Global, stmts: &[CoreStmt], scheme: &CoreScheme) -> Result<Item, AllocError>
    ensures { IfOk result (λ item. effect_of item ≡ effect (loop_of scheme.now (commands stmts.now))) }
{
    let head = lowered_head(alloc, scheme)?;
    let body = lower(alloc, stmts)?;
    Ok(Item::Loop(head, body))
}

/// What these statements do, one after the other.
#[cycle(lower)]
pub fn lower(alloc: Global, stmts: &[CoreStmt]) -> Result<Items<Item>, AllocError>
    ensures { IfOk result (λ items. effect_in items ≡ effects stmts.now) }
{
    let mut items = Items::new(alloc);
    for stmt in stmts {
        let item = lowered(alloc, stmt)?;
        items.push(item)?;
    }
    Ok(items)
}
