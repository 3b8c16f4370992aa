// What a step changes of a sequent.
ghost use Rattle.std.specs.Prelude.{◌≡◌, [], ◌∷◌, map, None, Some, IfOk};
ghost use Rattle.spx_kernel.specs.Changes.{change_goal, change_hyp, changed, listed, more, other};

use spx_term::{Sequent, Term, copy_all};
use sqlite_items::{Boxed, Items};
use std::alloc::{AllocError, Global};

/// What a sequent that is left has beside the hypotheses of the one that the step is on: more hypotheses, which go last, and
/// another goal, if there is one.
#[derive(Drop)]
pub(crate) struct Change {
    pub(crate) hyps: Items<Term>,
    pub(crate) goal: Option<Boxed<Term>>,
}

/// The changes to the sequents that are left, in their order.
#[derive(Drop)]
pub(crate) enum Changes {
    None,
    One(Change),
    Two(Change, Change),
    Three(Change, Change, Change),
}

/// An equal term, in a box.
pub(crate) fn boxed_copy(alloc: Global, term: &Term) -> Result<Boxed<Term>, AllocError>
    ensures { IfOk result (λ t. t ≡ term.now) }
{
    let copy = term.copy(alloc)?;
    Boxed::new(alloc, copy)
}

/// Another goal.
pub(crate) fn goal(alloc: Global, goal: Boxed<Term>) -> Change
    ensures { result ≡ change_goal goal }
{
    Change {
        hyps: Items::new(alloc),
        goal: Some(goal),
    }
}

/// One more hypothesis.
pub(crate) fn hyp(alloc: Global, hyp: Boxed<Term>) -> Result<Change, AllocError>
    ensures { IfOk result (λ c. c ≡ change_hyp hyp) }
{
    let mut hyps = Items::new(alloc);
    hyps.push(hyp.into_inner())?;
    Ok(Change { hyps, goal: None })
}

/// Several hypotheses, one after the other.
pub(crate) fn two_hyps(
    alloc: Global,
    first: Boxed<Term>,
    second: Boxed<Term>,
) -> Result<Items<Term>, AllocError>
    ensures { IfOk result (λ hyps. hyps ≡ first ∷ second ∷ []) }
{
    let mut hyps = Items::new(alloc);
    hyps.push(first.into_inner())?;
    hyps.push(second.into_inner())?;
    Ok(hyps)
}

/// The hypotheses with more of them, which go last.
#[tactic(auto, using(crate::proofs::ChangeLaws::more_is))]
fn with_more(mut hyps: Items<Term>, added: Items<Term>) -> Result<Items<Term>, AllocError>
    ensures { IfOk result (λ r. r ≡ more hyps added) }
{
    hyps.append(added)?;
    Ok(hyps)
}

/// Another goal, if there is one, and else the one that there was.
fn other(old: Boxed<Term>, new: Option<Boxed<Term>>) -> Boxed<Term>
    ensures { result ≡ other old new }
{
    match new {
        Some(goal) => goal,
        None => old,
    }
}

/// Another goal, if there is one, and else a copy of the one that there was.
fn other_or_copy(
    alloc: Global,
    old: &Term,
    new: Option<Boxed<Term>>,
) -> Result<Boxed<Term>, AllocError>
    ensures { IfOk result (λ r. r ≡ other old.now new) }
{
    match new {
        Some(goal) => Ok(goal),
        None => boxed_copy(alloc, old),
    }
}

/// A sequent in a box.
fn sequent_of(
    alloc: Global,
    hyps: Items<Term>,
    goal: Boxed<Term>,
) -> Result<Boxed<Sequent>, AllocError>
    ensures { IfOk result (λ s. s ≡ record { hyps = hyps; goal = goal }) }
{
    let goal = goal.into_inner();
    Boxed::new(alloc, Sequent { hyps, goal })
}

/// The sequent of these hypotheses and this goal, with the change.
fn moved(
    alloc: Global,
    hyps: Items<Term>,
    goal: Boxed<Term>,
    change: Change,
) -> Result<Boxed<Sequent>, AllocError>
    ensures { IfOk result (λ s. s ≡ changed (record { hyps = hyps; goal = goal }) change) }
{
    let Change {
        hyps: added,
        goal: new,
    } = change;
    let goal = other(goal, new);
    let hyps = with_more(hyps, added)?;
    sequent_of(alloc, hyps, goal)
}

/// A copy of the sequent of these hypotheses and this goal, with the change.
fn changed(
    alloc: Global,
    hyps: &[Term],
    goal: &Term,
    change: Change,
) -> Result<Boxed<Sequent>, AllocError>
    ensures { IfOk result (λ s. s ≡ changed (record { hyps = hyps.now; goal = goal.now }) change) }
{
    let Change {
        hyps: added,
        goal: new,
    } = change;
    let goal = other_or_copy(alloc, goal, new)?;
    let copies = copy_all(alloc, hyps)?;
    let hyps = with_more(copies, added)?;
    sequent_of(alloc, hyps, goal)
}

/// An equal sequent, in a box.
pub(crate) fn copied(alloc: Global, sequent: &Sequent) -> Result<Boxed<Sequent>, AllocError>
    ensures { IfOk result (λ s. s ≡ sequent.now) }
{
    let goal = boxed_copy(alloc, &sequent.goal)?;
    let hyps = copy_all(alloc, sequent.hyps.as_slice())?;
    sequent_of(alloc, hyps, goal)
}

/// Two sequents.
fn two(
    alloc: Global,
    first: Boxed<Sequent>,
    second: Boxed<Sequent>,
) -> Result<Items<Sequent>, AllocError>
    ensures { IfOk result (λ left. left ≡ first ∷ second ∷ []) }
{
    let mut left = Items::new(alloc);
    left.push(first.into_inner())?;
    left.push(second.into_inner())?;
    Ok(left)
}

/// One sequent, which takes the hypotheses.
fn one_left(
    alloc: Global,
    hyps: Items<Term>,
    goal: Boxed<Term>,
    change: Change,
) -> Result<Items<Sequent>, AllocError>
    ensures { IfOk result (λ left. left ≡ changed (record { hyps = hyps; goal = goal }) change ∷ []) }
{
    let only = moved(alloc, hyps, goal, change)?;
    let mut left = Items::new(alloc);
    left.push(only.into_inner())?;
    Ok(left)
}

/// Two sequents, of which the last one takes the hypotheses.
fn two_left(
    alloc: Global,
    hyps: Items<Term>,
    goal: Boxed<Term>,
    first: Change,
    last: Change,
) -> Result<Items<Sequent>, AllocError>
    ensures { IfOk result (λ left. left ≡ changed (record { hyps = hyps; goal = goal }) first ∷ changed (record { hyps = hyps; goal = goal }) last ∷ []) }
{
    let first = changed(alloc, hyps.as_slice(), goal.get(), first)?;
    let last = moved(alloc, hyps, goal, last)?;
    two(alloc, first, last)
}

/// Three sequents, of which the last one takes the hypotheses.
fn three_left(
    alloc: Global,
    hyps: Items<Term>,
    goal: Boxed<Term>,
    first: Change,
    second: Change,
    last: Change,
) -> Result<Items<Sequent>, AllocError>
    ensures { IfOk result (λ left. left ≡ changed (record { hyps = hyps; goal = goal }) first ∷ changed (record { hyps = hyps; goal = goal }) second ∷ changed (record { hyps = hyps; goal = goal }) last ∷ []) }
{
    let only = changed(alloc, hyps.as_slice(), goal.get(), first)?;
    let others = two_left(alloc, hyps, goal, second, last)?;
    let mut left = Items::new(alloc);
    left.push(only.into_inner())?;
    left.append(others)?;
    Ok(left)
}

/// The sequents that are left of the one of these hypotheses and this goal. The last of them takes the hypotheses, so that
/// these are copied only where several are left.
pub(crate) fn applied(
    alloc: Global,
    hyps: Items<Term>,
    goal: Boxed<Term>,
    changes: Changes,
) -> Result<Items<Sequent>, AllocError>
    ensures { IfOk result (λ left. left ≡ map (changed (record { hyps = hyps; goal = goal })) (listed changes)) }
{
    match changes {
        Changes::None => Ok(Items::new(alloc)),
        Changes::One(last) => one_left(alloc, hyps, goal, last),
        Changes::Two(first, last) => two_left(alloc, hyps, goal, first, last),
        Changes::Three(first, second, last) => three_left(alloc, hyps, goal, first, second, last),
    }
}
