// Functions of types: conversions, qualifications, and `Pos`, `Val`, `Succ` and `Pred` (Ada 95 RM 3.5.5, 4.6, 4.7).
ghost use Rattle.std.specs.Prelude.{◌≡◌};
ghost use Rattle.spx_core.specs.Judged as rules;

use crate::attributes::{attribute_function, has_attribute};
use crate::names::{keeps, named_type};
use crate::types::{is_numeric, is_taken};
use crate::values::{is_held, lies_in_operand, lies_within, shifted_value, span_of};
use spx_core::{
    Breach, Class, CoreFunction, ExprType, FunctionForm, Mapping, OperandType, RuleName, Shift,
    Span, Subtype, Typing,
};
use spx_text::{Place, Text};

/// What is asked of values of a class: nothing of truth values, and of values with parts.
fn bounds_in(class: Class, span: Span) -> Option<Span>
    ensures { result ≡ rules.bounds_in class span }
{
    match class {
        Class::Integer | Class::Enumeration => Some(span),
        Class::Boolean | Class::Composite => None,
    }
}

/// A number of any type becomes one of this type.
fn conversion(subtype: Subtype) -> Mapping
    ensures { result ≡ rules.conversion subtype }
{
    Mapping {
        operand: OperandType::AnyNumber,
        shift: Shift::Same,
        bounds: Some(span_of(subtype)),
        result: subtype.base,
    }
}

/// A value of the base type is one of this type.
fn qualification(subtype: Subtype) -> Mapping
    ensures { result ≡ rules.qualification subtype }
{
    Mapping {
        operand: OperandType::ValueOf(subtype.base),
        shift: Shift::Same,
        bounds: bounds_in(subtype.base.class, span_of(subtype)),
        result: subtype.base,
    }
}

/// The function that an attribute of a type is.
fn function_at(place: Place, subtype: Subtype, designator: &Text) -> Result<Mapping, Breach>
    ensures { result ≡ rules.function_at place (rules.attribute_function subtype.base designator.now) }
{
    attribute_function(subtype.base, designator).ok_or(Breach {
        rule: RuleName::N14,
        place,
    })
}

fn applied_form(place: Place, subtype: Subtype, form: &FunctionForm) -> Result<Mapping, Breach>
    ensures { result ≡ rules.applied_form place subtype form.now }
{
    match form {
        FunctionForm::Simple => {
            keeps(RuleName::N10, place, is_numeric(subtype.base.class))?;
            Ok(conversion(subtype))
        }
        FunctionForm::Attribute(designator) => {
            let kept = has_attribute(subtype, &designator.text);
            keeps(RuleName::N3, place, kept)?;
            function_at(place, subtype, &designator.text)
        }
        FunctionForm::Qualified => Ok(qualification(subtype)),
    }
}

/// What a function does, or the first rule that is broken in its name.
pub fn application(function: &CoreFunction) -> Result<Mapping, Breach>
    ensures { result ≡ rules.application function.now }
{
    let subtype = named_type(&function.name)?;
    applied_form(function.name.name.place, subtype, &function.form)
}

/// What a function, which is named at the place, makes of an operand.
pub fn mapped(place: Place, mapping: Mapping, operand: Typing) -> Result<Typing, Breach>
    ensures { result ≡ rules.mapped place mapping operand }
{
    let value = shifted_value(mapping.shift, operand.value);
    let taken = is_taken(mapping.operand, operand.of);
    let lies_in = lies_in_operand(mapping.operand, operand.value);
    keeps(RuleName::N10, operand.place, taken)?;
    keeps(RuleName::N12, operand.place, lies_in)?;
    keeps(RuleName::N12, place, is_held(operand.value, value))?;
    keeps(RuleName::N12, place, lies_within(mapping.bounds, value))?;
    Ok(Typing {
        of: ExprType::Of(mapping.result),
        value,
        place,
    })
}
