// What is read of a composite value.
ghost use Rattle.std.specs.Prelude.{◌≡◌, IfOk};
ghost use Rattle.spx_term.specs.declared.reading.Reading.TheVariants as reading;
ghost use Rattle.spx_term.specs.Values as values;
ghost use Rattle.spx_term.specs.Folding as spec;

use crate::term::boxed_copy;
use crate::{
    ArrayType, BinaryOp, Component, FieldName, Literal, Quantifier, Term, TernaryOp, UnaryOp,
    boxed_binary, boxed_number, boxed_unary,
};
use sqlite_items::Boxed;
use std::alloc::{AllocError, Global};

/// What is read of a composite value.
#[derive(Clone, Copy, PartialEq, Eq)]
pub enum Reading {
    /// The element at this index, which is in range.
    Element(ArrayType, i128),
    /// A field of this type.
    Field(FieldName, Component),
}

/// Where an operation keeps what is read of its value.
#[derive(Clone, Copy, PartialEq, Eq)]
pub enum Found {
    /// It is the last part.
    Last,
    /// It is what is read of the composite value before.
    Before,
    /// That is not seen.
    Unseen,
}

/// Whether a number lies between two others.
fn lies_between(low: i128, high: i128, n: i128) -> bool
    ensures { result ≡ values.lies_between low high n }
{
    low <= n && n <= high
}

impl ArrayType {
    /// Whether the arrays have an element at this index.
    pub fn has_index(self, index: i128) -> bool
        ensures { result ≡ values.lies_between self.first self.last index }
    {
        lies_between(i128::from(self.first), i128::from(self.last), index)
    }
}

/// Where an operation on one term keeps what is read.
#[tactic(auto, unfolding(crate::specs::Folding::found_in_unary))]
pub fn found_in_unary(reading: Reading, op: UnaryOp) -> Found
    ensures { result ≡ spec.found_in_unary reading op }
{
    match (reading, op) {
        (Reading::Element(_, _), UnaryOp::Others(_)) => Found::Last,
        _ => Found::Unseen,
    }
}

/// Where an operation on a composite value and another term keeps what is read.
#[tactic(auto, unfolding(crate::specs::Folding::found_in_binary))]
pub fn found_in_binary(reading: Reading, op: BinaryOp) -> Found
    ensures { result ≡ spec.found_in_binary reading op }
{
    match (reading, op) {
        (Reading::Element(_, index), BinaryOp::Elements(_, low, high)) => {
            if lies_between(i128::from(low), i128::from(high), index) {
                Found::Last
            } else {
                Found::Before
            }
        }
        (Reading::Field(field, _), BinaryOp::Update(other)) => at_field(field, other),
        (Reading::Field(field, _), BinaryOp::Field(other)) => at_field(field, other),
        _ => Found::Unseen,
    }
}

fn at_field(field: FieldName, other: FieldName) -> Found
    ensures { result ≡ spec.found_at_field field other }
{
    if other.place == field.place {
        Found::Last
    } else {
        Found::Before
    }
}

/// Where an operation on three terms keeps what is read. The second term is the literal `index`, or none.
#[tactic(auto, unfolding(crate::specs::Folding::found_in_ternary))]
pub fn found_in_ternary(reading: Reading, op: TernaryOp, index: Option<Literal>) -> Found
    ensures { result ≡ spec.found_in_ternary reading op index }
{
    match (reading, op, index) {
        (Reading::Element(array, wanted), TernaryOp::Update(_), Some(Literal::Number(index))) => {
            at_index(array, wanted, index)
        }
        _ => Found::Unseen,
    }
}

fn at_index(array: ArrayType, wanted: i128, index: i128) -> Found
    ensures { result ≡ spec.found_at_index array wanted index }
{
    if !array.has_index(index) {
        return Found::Unseen;
    }
    if index == wanted {
        Found::Last
    } else {
        Found::Before
    }
}

/// The term that reads.
pub fn read(alloc: Global, reading: Reading, term: &Term) -> Result<Boxed<Term>, AllocError>
    ensures { IfOk result (λ r. r ≡ spec.read reading term.now) }
{
    let value = boxed_copy(alloc, term)?;
    match reading {
        Reading::Element(array, index) => read_at(alloc, array, value, index),
        Reading::Field(field, component) => {
            boxed_unary(alloc, UnaryOp::Field(field, component), value)
        }
    }
}

/// `a[i]` for a number i
fn read_at(
    alloc: Global,
    array: ArrayType,
    value: Boxed<Term>,
    index: i128,
) -> Result<Boxed<Term>, AllocError>
    ensures { IfOk result (λ r. r ≡ spec.read (reading.Element array index) value) }
{
    let index = boxed_number(alloc, index)?;
    boxed_binary(alloc, BinaryOp::Element(array), value, index)
}

/// What a quantifier over no number is.
pub fn of_none(quantifier: Quantifier) -> bool
    ensures { result ≡ spec.of_none quantifier }
{
    match quantifier {
        Quantifier::All => true,
        Quantifier::Some => false,
    }
}

/// Whether there is no number between two literals.
pub fn is_empty(low: Option<Literal>, high: Option<Literal>) -> bool
    ensures { result ≡ spec.is_empty low high }
{
    match (low, high) {
        (Some(Literal::Number(low)), Some(Literal::Number(high))) => high < low,
        _ => false,
    }
}
