// The first values of types, which unset variables count as in annotations.
ghost use Rattle.std.specs.Prelude.{◌≡◌, ◌≤◌, length, map, replicate, IfOk};
ghost use Rattle.spx_core.specs.declared.program.Field.{Field};
ghost use Rattle.spx_term.specs.declared.value.Value.TheVariants.{Elements};
ghost use Rattle.spx_term.specs.Values as values;
ghost use Rattle.spx_meaning.specs.Mirror.{types_before};
ghost use Rattle.spx_meaning.specs.Stores.{first_value, types_of};

use crate::values::filled;
use spx_core::{Class, Field, Program, Subtype, TypeForm, TypeId};
use spx_term::Value;
use sqlite_items::Items;
use std::alloc::{AllocError, Global};

/// The most levels of a first value, since each of them takes room on the stack. A value with more counts as one for which memory
/// runs out.
const MOST_VALUE_LEVELS: u32 = 2000;

/// An array of these indexes, each of whose elements has this value.
fn array_of(alloc: Global, index: &Subtype, element: &Value) -> Result<Value, AllocError>
    ensures { IfOk result (λ value. value ≡ Elements index.now.first (replicate (values.count index.now.first index.now.last) element.now)) }
{
    let elements = filled(alloc, index.first, index.last, element)?;
    Ok(Value::Elements(index.first, elements))
}

/// The first value of a type, whose parts are of types before this position of the table.
#[cycle(first)]
fn first_before(
    alloc: Global,
    program: &Program,
    size: usize,
    subtype: Subtype,
    room: u32,
) -> Result<Value, AllocError>
    requires { size ≤ length program.now.types }
    ensures { IfOk result (λ value. value ≡ first_value (types_before program.now size) subtype) }
{
    match subtype.base.class {
        Class::Integer | Class::Enumeration => Ok(Value::Number(subtype.first)),
        Class::Boolean => Ok(Value::Truth(false)),
        Class::Composite => first_composite(alloc, program, size, subtype.base.id, room),
    }
}

/// The first value of the composite type at a position of the table. A type that is not before the other position counts as the number 0.
#[cycle(first)]
fn first_composite(
    alloc: Global,
    program: &Program,
    size: usize,
    id: TypeId,
    room: u32,
) -> Result<Value, AllocError>
    requires { size ≤ length program.now.types }
    ensures { IfOk result (λ value. value ≡ values.first_value (types_before program.now size id.0)) }
{
    if id.0 >= size {
        return Ok(Value::Number(0));
    }
    if room == 0 {
        return Err(AllocError);
    }
    let row = &program.types.as_slice()[id.0];
    match &row.form {
        TypeForm::Scalar => first_before(alloc, program, id.0, row.subtype, room - 1),
        TypeForm::Array(index, element) => {
            let element = first_before(alloc, program, id.0, *element.get(), room - 1)?;
            array_of(alloc, index.get(), &element)
        }
        TypeForm::Record(fields) => {
            let fields = first_fields(alloc, program, id.0, fields.as_slice(), room - 1)?;
            Ok(Value::Fields(fields))
        }
    }
}

/// The first value of each field, whose parts are of types before this position of the table.
#[cycle(first)]
fn first_fields(
    alloc: Global,
    program: &Program,
    size: usize,
    fields: &[Field],
    room: u32,
) -> Result<Items<Value>, AllocError>
    requires { size ≤ length program.now.types }
    ensures { IfOk result (λ found. found ≡ map (λ (field : Field). first_value (types_before program.now size) field.subtype) fields.now) }
{
    let mut found = Items::new(alloc);
    for field in fields {
        found.push(first_before(alloc, program, size, field.subtype, room)?)?;
    }
    Ok(found)
}

/// The first value of a type of the program.
#[tactic(auto, using(crate::proofs::FirstValues::before_end))]
pub fn first_value(alloc: Global, program: &Program, subtype: Subtype) -> Result<Value, AllocError>
    ensures { IfOk result (λ value. value ≡ first_value (types_of program.now) subtype) }
{
    first_before(
        alloc,
        program,
        program.types.len(),
        subtype,
        MOST_VALUE_LEVELS,
    )
}
