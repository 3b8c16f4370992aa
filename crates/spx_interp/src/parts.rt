// Parts of values (Ada 95 RM 4.1.1, 4.1.3).
ghost use Rattle.std.specs.Prelude.{◌≡◌, IfOk, IfNone, map, unwrap_or};
ghost use Rattle.std.specs.Option.{option_copied};
ghost use Rattle.spx_term.specs.declared.value.Value.{Value};
ghost use Rattle.spx_term.specs.Values.{Types};
ghost use Rattle.spx_term.specs.Parts.{part_of, with_end, with_part};
ghost use Rattle.spx_meaning.specs.Stores.{types_of};
ghost use Rattle.spx_interp.specs.Ways.{absent_part, step_of};

use crate::firsts::first_value;
use crate::operand::Operand;
use spx_core::{Indexing, Program, Selection};
use spx_meaning::{Value, element_of, field_of, with_element, with_field};
use std::alloc::{AllocError, Global};

/// A step to a part, with the value of its index.
#[derive(Clone, Copy)]
pub(crate) enum PlacedStep {
    Element(Indexing, i128),
    Field(Selection),
}

/// The part to which a step leads, if there is one.
#[tactic(auto, using(crate::proofs::WayLaws::step_laws))]
fn part_in(value: &Value, step: PlacedStep) -> Option<&Value>
    ensures there { (types : Types) → unwrap_or (option_copied result) (absent_part types step) ≡ part_of types (step_of step) value.now }
    ensures absent { IfNone result ((part : Value) → with_part (step_of step) value.now part ≡ value.now) }
{
    match step {
        PlacedStep::Element(_, index) => element_of(value, index),
        PlacedStep::Field(field) => field_of(value, field.position),
    }
}

/// The value with another part where a step leads.
#[tactic(auto, using(crate::proofs::WayLaws::step_laws))]
fn with_part(value: Value, step: PlacedStep, part: Value) -> Value
    ensures { result ≡ with_part (step_of step) value part }
{
    match step {
        PlacedStep::Element(_, index) => with_element(value, index, part),
        PlacedStep::Field(field) => with_field(value, field.position, part),
    }
}

/// The first value of the type of the part.
fn first_part(alloc: Global, program: &Program, step: PlacedStep) -> Result<Value, AllocError>
    ensures { IfOk result (λ value. value ≡ absent_part (types_of program.now) step) }
{
    match step {
        PlacedStep::Element(x, _) => first_value(alloc, program, x.element),
        PlacedStep::Field(x) => first_value(alloc, program, x.field),
    }
}

/// The part of a value that a store has.
fn part_of_lent<'a>(
    alloc: Global,
    program: &Program,
    value: &'a Value,
    step: PlacedStep,
) -> Result<Operand<'a>, AllocError>
    ensures { IfOk result (λ part. part ≡ part_of (types_of program.now) (step_of step) value.now) }
{
    match part_in(value, step) {
        Some(part) => Ok(Operand::lent(part)),
        None => Ok(Operand::own(first_part(alloc, program, step)?)),
    }
}

/// A copy of the part of a value.
fn part_of_own(
    alloc: Global,
    program: &Program,
    value: &Value,
    step: PlacedStep,
) -> Result<Value, AllocError>
    ensures { IfOk result (λ part. part ≡ part_of (types_of program.now) (step_of step) value.now) }
{
    match part_in(value, step) {
        Some(part) => part.copy(alloc),
        None => first_part(alloc, program, step),
    }
}

/// The part of the value of an expression. What is not there has the first value of its type.
pub(crate) fn part<'a>(
    alloc: Global,
    program: &Program,
    whole: Operand<'a>,
    step: PlacedStep,
) -> Result<Operand<'a>, AllocError>
    ensures { IfOk result (λ part. part ≡ part_of (types_of program.now) (step_of step) whole.entry) }
{
    match whole.as_lent() {
        Some(value) => part_of_lent(alloc, program, value, step),
        None => {
            let part = part_of_own(alloc, program, whole.as_value(), step)?;
            Ok(Operand::own(part))
        }
    }
}

/// The value with another part at the end of a way. Only the parts on the way between are copied.
#[cycle(with_end)]
pub(crate) fn with_end(
    alloc: Global,
    value: Value,
    way: &[PlacedStep],
    end: Value,
) -> Result<Value, AllocError>
    ensures { (types : Types) → IfOk result (λ whole. whole ≡ with_end types (map step_of way.now) value end) }
{
    match way {
        [] => Ok(end),
        [step] => Ok(with_part(value, *step, end)),
        [step, more @ ..] => {
            let Some(part) = part_in(&value, *step) else {
                return Ok(value);
            };
            let part = part.copy(alloc)?;
            let part = with_end(alloc, part, more, end)?;
            Ok(with_part(value, *step, part))
        }
    }
}
