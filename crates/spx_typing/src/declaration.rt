// The rules on declarations (Ada 95 RM 3.2, 3.3, 3.5, 8.3).
ghost use Rattle.std.specs.Prelude.{◌≡◌};
ghost use Rattle.spx_core.specs.Judged.{each, if_there};
ghost use Rattle.spx_core.specs.Statements as rules;

use spx_core::{
    BaseType, Breach, CoreDecl, CoreExpr, CoreFieldDecl, CoreParam, CoreRange, CoreTypeDef,
    Defining, Reference, RuleName, Subtype, Typing, WIDEST_FIRST, WIDEST_LAST,
};
use spx_text::Place;
use spx_types::{
    has_numbers, is_between, is_number, is_of, judge, keeps, ordered_type, referred_type, static_at,
};
use sqlite_items::Boxed;

/// The name may not be declared before.
pub fn declared_once(name: &Defining) -> Result<(), Breach>
    ensures { result ≡ rules.declared_once name.now }
{
    keeps(RuleName::N2, name.name.place, !name.again)
}

fn all_declared_once(names: &[Defining]) -> Result<(), Breach>
    ensures { result ≡ each rules.declared_once names.now }
{
    for name in names {
        declared_once(name)?;
    }
    Ok(())
}

/// Names, and then their type.
fn declared(names: &[Defining], type_name: &Reference) -> Result<(), Breach>
    ensures { result ≡ rules.declared names.now type_name.now }
{
    all_declared_once(names)?;
    referred_type(type_name)?;
    Ok(())
}

/// The first broken rule in formal parameters that are declared together.
pub fn judge_param(param: &CoreParam) -> Result<(), Breach>
    ensures { result ≡ rules.judged_param param.now }
{
    declared(param.names.as_slice(), &param.type_name)
}

/// A static number of any integer type is needed.
fn static_number(expr: Typing) -> Result<i128, Breach>
    ensures { result ≡ rules.static_number expr }
{
    keeps(RuleName::N10, expr.place, is_number(expr.of))?;
    static_at(expr.place, expr.value)
}

/// A static value of this base type is needed, between two of its values.
fn static_between(base: BaseType, first: i128, last: i128, expr: Typing) -> Result<i128, Breach>
    ensures { result ≡ rules.static_between base first last expr }
{
    keeps(RuleName::N10, expr.place, is_of(base, expr.of))?;
    let n = static_at(expr.place, expr.value)?;
    keeps(RuleName::N12, expr.place, is_between(first, last, n))?;
    Ok(n)
}

/// A bound: of a new type, a number of any integer type; of a subtype, a value of the base type.
fn bound(base: Option<BaseType>, expr: Typing) -> Result<i128, Breach>
    ensures { result ≡ rules.bound base expr }
{
    match base {
        None => static_number(expr),
        Some(base) => static_between(base, base.first, base.last, expr),
    }
}

/// The range is not empty, and lies between two ends.
fn range_within(
    base: Option<BaseType>,
    first: i128,
    last: i128,
    range: &CoreRange,
) -> Result<(), Breach>
    ensures { result ≡ rules.range_within base first last range.now }
{
    let low = judge(range.low.get())?;
    let place = low.place;
    let low = bound(base, low)?;
    let high = bound(base, judge(range.high.get())?)?;
    let kept = low <= high && first <= low && high <= last;
    keeps(RuleName::N13, place, kept)
}

/// The first broken rule in fields that are declared together.
fn judge_field(field: &CoreFieldDecl) -> Result<(), Breach>
    ensures { result ≡ rules.judged_field field.now }
{
    declared(field.names.as_slice(), &field.type_name)
}

fn judge_fields(fields: &[CoreFieldDecl]) -> Result<(), Breach>
    ensures { result ≡ each rules.judged_field fields.now }
{
    for field in fields {
        judge_field(field)?;
    }
    Ok(())
}

/// The first broken rule in what a type is declared as.
fn judge_definition(definition: &CoreTypeDef) -> Result<(), Breach>
    ensures { result ≡ rules.judged_definition definition.now }
{
    match definition {
        CoreTypeDef::Integer(range) => range_within(None, WIDEST_FIRST, WIDEST_LAST, range),
        CoreTypeDef::Enumeration(_, literals) => all_declared_once(literals.as_slice()),
        CoreTypeDef::Array(_, index, element) => {
            ordered_type(index)?;
            referred_type(element)?;
            Ok(())
        }
        CoreTypeDef::Record(fields, _) => judge_fields(fields.as_slice()),
    }
}

/// The first broken rule in the range of a subtype of this one, which is named at the place.
fn judge_constraint(
    place: Place,
    parent: Subtype,
    range: &Option<Boxed<CoreRange>>,
) -> Result<(), Breach>
    ensures { result ≡ rules.judged_constraint place parent range.now }
{
    let Some(range) = range else {
        return Ok(());
    };
    keeps(RuleName::N10, place, has_numbers(parent.base.class))?;
    range_within(Some(parent.base), parent.first, parent.last, range.get())
}

/// A static value of this type is needed.
fn value_of_type(subtype: Subtype, value: &CoreExpr) -> Result<i128, Breach>
    ensures { result ≡ rules.value_of_type subtype value.now }
{
    let value = judge(value)?;
    static_between(subtype.base, subtype.first, subtype.last, value)
}

/// The value of constants of this type, or of named numbers.
fn judge_value(type_name: &Option<Boxed<Reference>>, value: &CoreExpr) -> Result<i128, Breach>
    ensures { result ≡ rules.judged_value type_name.now value.now }
{
    match type_name {
        None => static_number(judge(value)?),
        Some(type_name) => value_of_type(referred_type(type_name.get())?, value),
    }
}

/// The first broken rule in the initial value of variables of this type, if they have one.
fn judge_initial(subtype: Subtype, value: &Option<Boxed<CoreExpr>>) -> Result<(), Breach>
    ensures { result ≡ if_there (rules.judged_initial subtype) value.now }
{
    let Some(value) = value else {
        return Ok(());
    };
    value_of_type(subtype, value.get())?;
    Ok(())
}

/// The first broken rule in a declaration.
pub fn judge_decl(decl: &CoreDecl) -> Result<(), Breach>
    ensures { result ≡ rules.judged_decl decl.now }
{
    match decl {
        CoreDecl::Variables(names, type_name, value) => {
            all_declared_once(names.get().as_slice())?;
            judge_initial(referred_type(type_name.get())?, value)
        }
        CoreDecl::Constants(names, type_name, value) => {
            all_declared_once(names.get().as_slice())?;
            judge_value(type_name, value.get())?;
            Ok(())
        }
        CoreDecl::FullType(name, definition) => {
            declared_once(name.get())?;
            judge_definition(definition.get())
        }
        CoreDecl::Subtype(name, parent, range) => {
            declared_once(name.get())?;
            let parent = parent.get();
            let subtype = referred_type(parent)?;
            judge_constraint(parent.root.name.place, subtype, range)
        }
    }
}
