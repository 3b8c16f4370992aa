// What is read of values and put into them, and when they are equal.
ghost use Rattle.std.specs.Prelude.{◌≡◌, ◌≢◌, ◌<◌, ◌+ℤ◌, ◌↔◌, ℕ, pos, map, replicate, length, Option, IfOk, IfNone, IsTrue, MatchOption, unwrap_or};
ghost use Rattle.std.specs.Option.{option_copied};
ghost use Rattle.spx_term.specs.declared.value.Value.{Value};
ghost use Rattle.spx_term.specs.Meaning.{as_number, as_truth, same_value};
ghost use Rattle.spx_term.specs.Values.{count, element_at, field_at, with_elements, with_field};

use spx_term::{Literal, Scalar, Value};
use sqlite_items::Items;
use std::alloc::{AllocError, Global};

// ---- numbers and truth values

/// The value that a number or a truth value is.
pub fn value_of(scalar: Scalar) -> Value
    ensures { result ≡ scalar }
{
    match scalar.literal() {
        Literal::Number(number) => Value::Number(number),
        Literal::Truth(truth) => Value::Truth(truth),
    }
}

/// The number, or 0 of what is none.
pub fn as_number(value: &Value) -> i128
    ensures { result ≡ as_number value.now }
{
    match value {
        Value::Number(number) => *number,
        Value::Truth(_) => 0,
        Value::Elements(_, _) => 0,
        Value::Fields(_) => 0,
    }
}

/// The truth value, or false of what is none.
pub fn as_truth(value: &Value) -> bool
    ensures { result ≡ as_truth value.now }
{
    match value {
        Value::Number(_) => false,
        Value::Truth(truth) => *truth,
        Value::Elements(_, _) => false,
        Value::Fields(_) => false,
    }
}

// ---- equality

#[cycle(equals)]
fn equals(a: &Value, b: &Value) -> bool
    ensures { IsTrue result ↔ (a.now ≡ b.now) }
{
    match a {
        Value::Number(m) => match b {
            Value::Number(n) => *m == *n,
            Value::Truth(_) => false,
            Value::Elements(_, _) => false,
            Value::Fields(_) => false,
        },
        Value::Truth(s) => match b {
            Value::Number(_) => false,
            Value::Truth(t) => *s == *t,
            Value::Elements(_, _) => false,
            Value::Fields(_) => false,
        },
        Value::Elements(m, xs) => match b {
            Value::Number(_) => false,
            Value::Truth(_) => false,
            Value::Elements(n, ys) => *m == *n && are_equal(xs.as_slice(), ys.as_slice()),
            Value::Fields(_) => false,
        },
        Value::Fields(xs) => match b {
            Value::Number(_) => false,
            Value::Truth(_) => false,
            Value::Elements(_, _) => false,
            Value::Fields(ys) => are_equal(xs.as_slice(), ys.as_slice()),
        },
    }
}

#[cycle(equals)]
fn are_equal(xs: &[Value], ys: &[Value]) -> bool
    ensures { IsTrue result ↔ (xs.now ≡ ys.now) }
{
    if xs.len() != ys.len() {
        return false;
    }
    for k in 0..xs.len() {
        if !equals(&xs[k], &ys[k]) {
            return false;
        }
    }
    true
}

/// Whether two values are equal.
#[tactic(auto, using(crate::proofs::SameValues::value_laws))]
pub fn is_same(a: &Value, b: &Value) -> bool
    ensures equal { IsTrue result ↔ (a.now ≡ b.now) }
    ensures test { result ≡ same_value a.now b.now }
{
    equals(a, b)
}

// ---- elements and fields

/// How many places an index comes after the first one, where there are so many elements.
fn offset_of(first: i128, len: usize, index: i128) -> Option<usize>
    ensures { MatchOption result ((k : ℕ) → k < len → index ≢ first +ℤ pos k) (λ k. (k < len) × (index ≡ first +ℤ pos k)) }
{
    let Some(offset) = index.checked_sub(first) else {
        return None;
    };
    if 0 <= offset && offset < len as i128 {
        Some(offset as usize)
    } else {
        None
    }
}

/// The element at an index, if there is one.
#[tactic(auto, using(crate::proofs::PartValues::part_forms))]
pub fn element_of(value: &Value, index: i128) -> Option<&Value>
    ensures there { (other : Value) → unwrap_or (option_copied result) other ≡ element_at other index value.now }
    ensures absent { IfNone result ((part : Value) → with_elements index index part value.now ≡ value.now) }
{
    match value {
        Value::Number(_) => None,
        Value::Truth(_) => None,
        Value::Elements(first, elements) => {
            match offset_of(*first, elements.len(), index) {
                Some(place) => Some(&elements.as_slice()[place]),
                None => None,
            }
        }
        Value::Fields(_) => None,
    }
}

/// The value with another element at an index, if it has one there.
#[tactic(auto, using(crate::proofs::PartValues::part_forms))]
pub fn with_element(value: Value, index: i128, part: Value) -> Value
    ensures { result ≡ with_elements index index part value }
{
    match value {
        Value::Number(number) => Value::Number(number),
        Value::Truth(truth) => Value::Truth(truth),
        Value::Elements(first, elements) => {
            let mut elements = elements;
            match offset_of(first, elements.len(), index) {
                Some(place) => {
                    elements.set(place, part);
                    Value::Elements(first, elements)
                }
                None => Value::Elements(first, elements),
            }
        }
        Value::Fields(fields) => Value::Fields(fields),
    }
}

/// The field at a place, if there is one.
#[tactic(auto, using(crate::proofs::PartValues::part_forms))]
pub fn field_of(value: &Value, place: usize) -> Option<&Value>
    ensures there { (other : Value) → unwrap_or (option_copied result) other ≡ field_at other place value.now }
    ensures absent { IfNone result ((part : Value) → with_field place part value.now ≡ value.now) }
{
    match value {
        Value::Number(_) => None,
        Value::Truth(_) => None,
        Value::Elements(_, _) => None,
        Value::Fields(fields) => fields.get(place),
    }
}

/// The value with another field at a place, if it has one there.
#[tactic(auto, using(crate::proofs::PartValues::part_forms))]
pub fn with_field(value: Value, place: usize, part: Value) -> Value
    ensures { result ≡ with_field place part value }
{
    match value {
        Value::Number(number) => Value::Number(number),
        Value::Truth(truth) => Value::Truth(truth),
        Value::Elements(first, elements) => Value::Elements(first, elements),
        Value::Fields(fields) => {
            let mut fields = fields;
            if place >= fields.len() {
                return Value::Fields(fields);
            }
            fields.set(place, part);
            Value::Fields(fields)
        }
    }
}

// ---- lists of values

/// A copy of the value at each index from the first to the last one.
pub(crate) fn filled(
    alloc: Global,
    first: i128,
    last: i128,
    value: &Value,
) -> Result<Items<Value>, AllocError>
    ensures { IfOk result (λ items. items ≡ replicate (count first last) value.now) }
{
    let mut items = Items::new(alloc);
    if first > last {
        return Ok(items);
    }
    let mut index = first;
    loop {
        items.push(value.copy(alloc)?)?;
        if index == last {
            return Ok(items);
        }
        index += 1;
    }
}

/// An equal value, if there is one.
fn copy_slot(alloc: Global, slot: &Option<Value>) -> Result<Option<Value>, AllocError>
    ensures { IfOk result (λ copy. copy ≡ slot.now) }
{
    match slot {
        Some(value) => Ok(Some(value.copy(alloc)?)),
        None => Ok(None),
    }
}

/// Equal values, by the variables' positions. None is that of an unset variable.
pub fn copy_slots(alloc: Global, slots: &[Option<Value>]) -> Result<Vec<Option<Value>>, AllocError>
    ensures { IfOk result (λ copies. copies.items ≡ slots.now) }
{
    let mut copies = Vec::new(alloc);
    for slot in slots {
        copies.push(copy_slot(alloc, slot)?)?;
    }
    Ok(copies)
}
