// The step on the first element of an updated array.
ghost use Rattle.std.specs.Prelude.{◌≡◌, [], ◌∷◌, Some, IfOk};
ghost use Rattle.spx_kernel.specs.declared.change.Changes.TheVariants as changes;
ghost use Rattle.spx_term.specs.declared.term.TermOp.TheVariants as op;
ghost use Rattle.spx_term.specs.declared.term.TernaryOp.TheVariants as ternary;
ghost use Rattle.spx_term.specs.declared.term.Term.{out-Term};
ghost use Rattle.spx_term.specs.declared.term.Term.TheVariants as term;
ghost use Rattle.spx_kernel.specs.Changes.{Leaves, change_goal};
ghost use Rattle.spx_kernel.specs.Elements.{spot_of, updated_in};
ghost use Rattle.spx_kernel.specs.Splittings.{of_spot, filled, wrap, either, ordered, read, splitting, in_ternary, prints_second_first};
ghost use Rattle.spx_kernel.specs.Steps.{in_range, elem_at};

use crate::StepFault;
use crate::change::{Change, Changes, boxed_copy};
use crate::logic::{hyp_of, operation};
use crate::quantifier::range_goal;
use spx_term::{
    ArrayType, BinaryOp, MOST_LEVELS, Sequent, Term, TermOp, TermPrefix, TernaryOp, UnaryOp,
    boxed_binary, boxed_infix, boxed_number, boxed_prefix, boxed_ternary, boxed_unary,
};
use sqlite_items::Boxed;
use std::alloc::{AllocError, Global};

/// The indexes of `A[i => e][j]`, and the type of the array.
#[derive(Drop)]
pub(crate) struct Indexes {
    pub(crate) array: ArrayType,
    /// The index that is updated.
    pub(crate) index: Boxed<Term>,
    /// The index that is read.
    pub(crate) at: Boxed<Term>,
}

/// What is left to show where the goal reads an element of an updated array.
#[derive(Drop)]
pub(crate) struct Splitting {
    pub(crate) indexes: Boxed<Indexes>,
    /// The goal where the indexes are equal: with the new element.
    pub(crate) equal: Boxed<Term>,
    /// The goal where they are not: with the element of the array before.
    pub(crate) unequal: Boxed<Term>,
}

/// What the first element of an updated array gives, if there is one.
type Found = Option<Boxed<Splitting>>;

/// What was found.
fn found(
    alloc: Global,
    indexes: Boxed<Indexes>,
    equal: Boxed<Term>,
    unequal: Boxed<Term>,
) -> Result<Found, AllocError>
    ensures { IfOk result (λ r. r ≡ Some (record { indexes = indexes; equal = equal; unequal = unequal })) }
{
    let whole = Boxed::new(
        alloc,
        Splitting {
            indexes,
            equal,
            unequal,
        },
    )?;
    Ok(Some(whole))
}

// ---- around a part

/// What is around a part of a term, with the other parts.
#[derive(Clone, Copy)]
pub(crate) enum Around<'a> {
    /// An operator before it.
    Prefix(TermPrefix),
    /// An operation on it, and on no other term.
    Unary(UnaryOp),
    /// An operation whose left operand it is, and the right one.
    Left(TermOp, &'a Term),
    /// An operation whose right operand it is, and the left one.
    Right(TermOp, &'a Term),
    /// An operation on a composite value, which it is, and the other term.
    Former(BinaryOp, &'a Term),
    /// An operation on a composite value, and that value.
    Latter(BinaryOp, &'a Term),
    /// An updated array of this type, whose array before it is; the index and the new element.
    Before(usize, &'a Term, &'a Term),
    /// An updated array whose index it is; the array before and the new element.
    Index(usize, &'a Term, &'a Term),
    /// An updated array whose new element it is; the array before and the index.
    Item(usize, &'a Term, &'a Term),
}

/// The whole term with this part in it.
fn fill(alloc: Global, around: Around<'_>, part: Boxed<Term>) -> Result<Boxed<Term>, AllocError>
    ensures { IfOk result (λ t. t ≡ filled around.entry part) }
{
    match around {
        Around::Prefix(op) => boxed_prefix(alloc, op, part),
        Around::Unary(op) => boxed_unary(alloc, op, part),
        Around::Left(op, right) => boxed_infix(alloc, op, part, boxed_copy(alloc, right)?),
        Around::Right(op, left) => boxed_infix(alloc, op, boxed_copy(alloc, left)?, part),
        Around::Former(op, right) => boxed_binary(alloc, op, part, boxed_copy(alloc, right)?),
        Around::Latter(op, left) => boxed_binary(alloc, op, boxed_copy(alloc, left)?, part),
        Around::Before(id, index, item) => {
            let index = boxed_copy(alloc, index)?;
            update(alloc, id, part, index, boxed_copy(alloc, item)?)
        }
        Around::Index(id, before, item) => {
            let before = boxed_copy(alloc, before)?;
            update(alloc, id, before, part, boxed_copy(alloc, item)?)
        }
        Around::Item(id, before, index) => {
            let before = boxed_copy(alloc, before)?;
            update(alloc, id, before, boxed_copy(alloc, index)?, part)
        }
    }
}

/// An updated array.
fn update(
    alloc: Global,
    id: usize,
    before: Boxed<Term>,
    index: Boxed<Term>,
    item: Boxed<Term>,
) -> Result<Boxed<Term>, AllocError>
    ensures { IfOk result (λ t. t ≡ term.Ternary (ternary.Update id) before index item) }
{
    boxed_ternary(alloc, TernaryOp::Update(id), before, index, item)
}

/// Both goals, with what is around the part in which the element is.
fn around_part(
    alloc: Global,
    around: Around<'_>,
    part: Boxed<Splitting>,
) -> Result<Found, AllocError>
    ensures { IfOk result (λ r. r ≡ wrap (filled around.entry) (Some part)) }
{
    let Splitting {
        indexes,
        equal,
        unequal,
    } = part.into_inner();
    let equal = fill(alloc, around, equal)?;
    let unequal = fill(alloc, around, unequal)?;
    found(alloc, indexes, equal, unequal)
}

/// The same where there is such an element.
fn in_part(alloc: Global, around: Around<'_>, part: Found) -> Result<Found, AllocError>
    ensures { IfOk result (λ r. r ≡ wrap (filled around.entry) part) }
{
    match part {
        Some(part) => around_part(alloc, around, part),
        None => Ok(None),
    }
}

// ---- the first element

/// `A[i => e][j]`, where `A` is of this type.
fn of_update(
    alloc: Global,
    array: ArrayType,
    before: &Term,
    index: &Term,
    item: &Term,
    at: &Term,
) -> Result<Found, AllocError>
    ensures { IfOk result (λ r. r ≡ Some (record { indexes = record { array = array; index = index.now; at = at.now }; equal = item.now; unequal = term.Binary (BinaryOp.Element array) before.now at.now })) }
{
    let indexes = indexes_of(alloc, array, index, at)?;
    let equal = boxed_copy(alloc, item)?;
    let unequal = element(alloc, array, before, at)?;
    found(alloc, indexes, equal, unequal)
}

/// Copies of the indexes.
fn indexes_of(
    alloc: Global,
    array: ArrayType,
    index: &Term,
    at: &Term,
) -> Result<Boxed<Indexes>, AllocError>
    ensures { IfOk result (λ r. r ≡ record { array = array; index = index.now; at = at.now }) }
{
    let index = boxed_copy(alloc, index)?;
    let at = boxed_copy(alloc, at)?;
    Boxed::new(alloc, Indexes { array, index, at })
}

/// `A[j]`
fn element(alloc: Global, array: ArrayType, of: &Term, at: &Term) -> Result<Boxed<Term>, AllocError>
    ensures { IfOk result (λ t. t ≡ term.Binary (BinaryOp.Element array) of.now at.now) }
{
    let of = boxed_copy(alloc, of)?;
    let at = boxed_copy(alloc, at)?;
    boxed_binary(alloc, BinaryOp::Element(array), of, at)
}

/// The element at an index of an array, if the array is an update.
#[tactic(auto, using(crate::proofs::Layers::layers))]
fn read_update(
    alloc: Global,
    array: ArrayType,
    updated: &Term,
    at: &Term,
) -> Result<Found, AllocError>
    ensures { IfOk result (λ r. r ≡ of_spot (updated_in array at.now (out-Term updated.now))) }
{
    match updated {
        Term::Ternary(op, before, index, item) => match *op.get() {
            TernaryOp::Update(_) => {
                of_update(alloc, array, before.get(), index.get(), item.get(), at)
            }
            TernaryOp::Quantified(_, _) => Ok(None),
        },
        Term::Number(_) => Ok(None),
        Term::Truth(_) => Ok(None),
        Term::Variable(_) => Ok(None),
        Term::Blank(_) => Ok(None),
        Term::Prefix(_, _) => Ok(None),
        Term::Infix(_, _, _) => Ok(None),
        Term::Unary(_, _) => Ok(None),
        Term::Binary(_, _, _) => Ok(None),
    }
}

/// The element of an updated array that an operation is.
fn read(alloc: Global, op: BinaryOp, array: &Term, at: &Term) -> Result<Found, AllocError>
    ensures { IfOk result (λ r. r ≡ read op array.now at.now) }
{
    match op {
        BinaryOp::Element(of) => read_update(alloc, of, array, at),
        BinaryOp::Update(_) => Ok(None),
        BinaryOp::Elements(_, _, _) => Ok(None),
        BinaryOp::Field(_) => Ok(None),
    }
}

/// Whether an operation prints its second part first.
fn prints_second_first(op: BinaryOp) -> bool
    ensures { result ≡ prints_second_first op }
{
    match op {
        BinaryOp::Element(_) => false,
        BinaryOp::Update(_) => false,
        BinaryOp::Elements(_, _, _) => true,
        BinaryOp::Field(_) => true,
    }
}

/// What the first element of an updated array gives, where the stack has room for so many levels.
#[cycle(split)]
#[tactic(auto, using(crate::proofs::SplittingForms::splitting_forms))]
fn split(alloc: Global, term: &Term, room: u32) -> Result<Found, AllocError>
    ensures { IfOk result (λ r. r ≡ splitting term.now) }
{
    if room == 0 {
        return Err(AllocError);
    }
    match term {
        Term::Number(_) => Ok(None),
        Term::Truth(_) => Ok(None),
        Term::Variable(_) => Ok(None),
        Term::Blank(_) => Ok(None),
        Term::Prefix(op, operand) => {
            let part = split(alloc, operand.get(), room - 1)?;
            in_part(alloc, Around::Prefix(*op), part)
        }
        Term::Infix(op, left, right) => {
            let part = split(alloc, left.get(), room - 1)?;
            if let Some(part) = part {
                return around_part(alloc, Around::Left(*op, right.get()), part);
            }
            let part = split(alloc, right.get(), room - 1)?;
            in_part(alloc, Around::Right(*op, left.get()), part)
        }
        Term::Unary(op, operand) => {
            let part = split(alloc, operand.get(), room - 1)?;
            in_part(alloc, Around::Unary(*op.get()), part)
        }
        Term::Binary(op, left, right) => {
            split_binary(alloc, left.get(), *op.get(), right.get(), room - 1)
        }
        Term::Ternary(op, first, second, third) => match *op.get() {
            TernaryOp::Update(id) => {
                split_update(alloc, first.get(), id, second.get(), third.get(), room - 1)
            }
            TernaryOp::Quantified(_, _) => Ok(None),
        },
    }
}

/// The same of an operation on a composite value and another term.
#[cycle(split)]
fn split_binary(
    alloc: Global,
    left: &Term,
    op: BinaryOp,
    right: &Term,
    room: u32,
) -> Result<Found, AllocError>
    ensures { IfOk result (λ r. r ≡ either (read op left.now right.now) (ordered op (wrap (λ x. term.Binary op x right.now) (splitting left.now)) (wrap (term.Binary op left.now) (splitting right.now)))) }
{
    if let Some(here) = read(alloc, op, left, right)? {
        return Ok(Some(here));
    }
    if prints_second_first(op) {
        if let Some(part) = split(alloc, right, room)? {
            return around_part(alloc, Around::Latter(op, left), part);
        }
        let part = split(alloc, left, room)?;
        return in_part(alloc, Around::Former(op, right), part);
    }
    if let Some(part) = split(alloc, left, room)? {
        return around_part(alloc, Around::Former(op, right), part);
    }
    let part = split(alloc, right, room)?;
    in_part(alloc, Around::Latter(op, left), part)
}

/// The same of an updated array.
#[cycle(split)]
fn split_update(
    alloc: Global,
    first: &Term,
    id: usize,
    second: &Term,
    third: &Term,
    room: u32,
) -> Result<Found, AllocError>
    ensures { IfOk result (λ r. r ≡ in_ternary (ternary.Update id) first.now second.now third.now) }
{
    if let Some(part) = split(alloc, first, room)? {
        return around_part(alloc, Around::Before(id, second, third), part);
    }
    if let Some(part) = split(alloc, second, room)? {
        return around_part(alloc, Around::Index(id, first, third), part);
    }
    let part = split(alloc, third, room)?;
    in_part(alloc, Around::Item(id, first, second), part)
}

// ---- the step

/// That the updated index is in the range of the array, as the goal.
fn range_of(alloc: Global, indexes: &Indexes) -> Result<Change, AllocError>
    ensures { IfOk result (λ c. c ≡ change_goal (in_range indexes.now.index (term.Number indexes.now.array.first) (term.Number indexes.now.array.last))) }
{
    let first = boxed_number(alloc, indexes.array.first as i128)?;
    let last = boxed_number(alloc, indexes.array.last as i128)?;
    range_goal(alloc, indexes.index.get(), first.get(), last.get())
}

/// A goal, where the indexes are in this relation.
fn case(
    alloc: Global,
    op: TermOp,
    indexes: &Indexes,
    goal: Boxed<Term>,
) -> Result<Change, AllocError>
    ensures { IfOk result (λ c. c ≡ record { hyps = term.Infix op indexes.now.index indexes.now.at ∷ []; goal = Some goal }) }
{
    let Change { hyps, goal: _ } = hyp_of(alloc, op, indexes.index.get(), indexes.at.get())?;
    let goal = Some(goal);
    Ok(Change { hyps, goal })
}

/// The index is in range; the new element where the indexes are equal, and else the element of the array before.
fn three_cases(alloc: Global, splitting: Boxed<Splitting>) -> Result<Changes, AllocError>
    ensures { IfOk result (λ cs. cs ≡ changes.Three (change_goal (in_range splitting.indexes.index (term.Number splitting.indexes.array.first) (term.Number splitting.indexes.array.last))) (record { hyps = term.Infix op.Equal splitting.indexes.index splitting.indexes.at ∷ []; goal = Some splitting.equal }) (record { hyps = term.Infix op.NotEqual splitting.indexes.index splitting.indexes.at ∷ []; goal = Some splitting.unequal })) }
{
    let Splitting {
        indexes,
        equal,
        unequal,
    } = splitting.into_inner();
    let second = case(alloc, TermOp::Equal, indexes.get(), equal)?;
    let last = case(alloc, TermOp::NotEqual, indexes.get(), unequal)?;
    let first = range_of(alloc, indexes.get())?;
    Ok(Changes::Three(first, second, last))
}

/// The step `elem`.
#[tactic(auto, using(crate::proofs::SplittingForms::elem_is))]
pub(crate) fn elem(alloc: Global, sequent: &Sequent) -> Result<Changes, StepFault>
    ensures { Leaves result sequent.now (elem_at sequent.now (spot_of sequent.now.goal)) }
{
    match split(alloc, &sequent.goal, MOST_LEVELS)? {
        Some(splitting) => Ok(three_cases(alloc, splitting)?),
        None => Err(StepFault::DoesNotApply),
    }
}
