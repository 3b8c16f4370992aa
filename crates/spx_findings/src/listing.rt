// The text of the verification conditions of a program.
ghost use Rattle.std.specs.Prelude.{◌≡◌, ◌++◌, ◌<◌, Some, None, length, map, slice_get, IfErr, IfOk, OnOk};
ghost use Rattle.spx_core.specs.declared.subprogram.Sub.{Sub};
ghost use Rattle.spx_text.specs.Loads.{names};
ghost use Rattle.spx_findings.specs.Findings.{first_limit, limit_at, limit_of};
ghost use Rattle.spx_report.specs.Limits.{IsFaultOf};
ghost use Rattle.spx_findings.specs.Listing as spec;

use crate::tally::kind_text;
use spx_core::{Field, Program, SubId, TypeForm, TypeRow};
use spx_num::decimal;
use spx_report::{FindFault, LimitName, spot_text};
use spx_term::{Condition, Names, Term, TypeNames, print};
use spx_text::Text;
use spx_vcg::{VcFault, conditions};
use sqlite_items::Items;
use std::alloc::{AllocError, Global};

/// The names of the variables of a program as they are declared, by their positions.
fn declared_names(alloc: Global, program: &Program) -> Result<Items<Text>, AllocError>
    ensures { IfOk result (λ declared. declared ≡ spec.declared_names program.now) }
{
    let mut declared = Items::new(alloc);
    for var in program.vars.as_slice() {
        declared.push(var.name.copy(alloc)?)?;
    }
    Ok(declared)
}

/// The names of the fields.
fn names_of(alloc: Global, fields: &[Field]) -> Result<Items<Text>, AllocError>
    ensures { IfOk result (λ names. names ≡ spec.names_of fields.now) }
{
    let mut names = Items::new(alloc);
    for field in fields {
        names.push(field.name.copy(alloc)?)?;
    }
    Ok(names)
}

/// The names of the fields of a type, which only a record type has.
fn field_names(alloc: Global, form: &TypeForm) -> Result<Items<Text>, AllocError>
    ensures { IfOk result (λ names. names ≡ spec.field_names form.now) }
{
    match form {
        TypeForm::Scalar => Ok(Items::new(alloc)),
        TypeForm::Array(_, _) => Ok(Items::new(alloc)),
        TypeForm::Record(fields) => names_of(alloc, fields.as_slice()),
    }
}

/// The names of a type and of its fields.
fn type_names(alloc: Global, row: &TypeRow) -> Result<TypeNames, AllocError>
    ensures { IfOk result (λ names. names ≡ spec.type_names row.now) }
{
    Ok(TypeNames {
        name: row.name.copy(alloc)?,
        fields: field_names(alloc, &row.form)?,
    })
}

/// The names of the types of a program, by their positions.
fn names_of_types(alloc: Global, program: &Program) -> Result<Items<TypeNames>, AllocError>
    ensures { IfOk result (λ names. names ≡ map spec.type_names program.now.types) }
{
    let mut names = Items::new(alloc);
    for row in program.types.as_slice() {
        names.push(type_names(alloc, row)?)?;
    }
    Ok(names)
}

/// The names that the terms of a program are printed with.
fn names_in(alloc: Global, program: &Program) -> Result<Names, AllocError>
    ensures { IfOk result (λ names. names ≡ spec.names_in program.now) }
{
    Ok(Names {
        variables: declared_names(alloc, program)?,
        types: names_of_types(alloc, program)?,
    })
}

/// `H1 TERM`, or with another letter and number.
#[tactic(auto, using(spx_report::proofs::Texts::texts), unfolding(crate::specs::Listing::term_line))]
fn put_term(
    alloc: Global,
    out: &mut Vec<u8>,
    declared: &Names,
    letter: &[u8],
    number: usize,
    term: &Term,
) -> Result<(), AllocError>
    ensures { OnOk result (out.new.items ≡ out.old.items ++ spec.term_line declared.now letter.now number term.now) }
{
    out.extend_from_slice(letter)?;
    out.extend_from_slice(decimal(alloc, i128::from(number as u64))?.as_slice())?;
    out.extend_from_slice(b" ")?;
    out.extend_from_slice(print(alloc, term, declared)?.as_bytes())?;
    out.extend_from_slice(b"\n")
}

/// A line for each term, numbered from 1.
fn put_terms(
    alloc: Global,
    out: &mut Vec<u8>,
    declared: &Names,
    letter: &[u8],
    terms: &[Term],
) -> Result<(), AllocError>
    ensures { OnOk result (out.new.items ≡ out.old.items ++ spec.term_lines declared.now letter.now 1 terms.now) }
{
    for (at, term) in terms.iter().enumerate() {
        put_term(alloc, out, declared, letter, at + 1, term)?;
    }
    Ok(())
}

/// `NAME KIND PLACE`
#[tactic(auto, using(spx_report::proofs::Texts::texts), unfolding(crate::specs::Listing::header_line))]
fn put_header(
    alloc: Global,
    out: &mut Vec<u8>,
    files: &[String],
    condition: &Condition,
) -> Result<(), AllocError>
    ensures { OnOk result (out.new.items ≡ out.old.items ++ spec.header_line (names files.now) condition.now) }
{
    out.extend_from_slice(condition.name.as_bytes())?;
    out.extend_from_slice(b" ")?;
    out.extend_from_slice(kind_text(condition.kind))?;
    out.extend_from_slice(b" ")?;
    out.extend_from_slice(spot_text(alloc, files, condition.place)?.as_slice())?;
    out.extend_from_slice(b"\n")
}

/// A condition: its header, its hypotheses, its goals.
#[tactic(auto, using(spx_report::proofs::Texts::texts), unfolding(crate::specs::Listing::condition_lines))]
fn put_condition(
    alloc: Global,
    out: &mut Vec<u8>,
    files: &[String],
    declared: &Names,
    condition: &Condition,
) -> Result<(), AllocError>
    ensures { OnOk result (out.new.items ≡ out.old.items ++ spec.condition_lines (names files.now) declared.now condition.now) }
{
    put_header(alloc, out, files, condition)?;
    put_terms(alloc, out, declared, b"H", condition.hyps.as_slice())?;
    put_terms(alloc, out, declared, b"G", condition.goals.as_slice())
}

/// Adds these conditions, one after another.
fn put_conditions(
    alloc: Global,
    out: &mut Vec<u8>,
    files: &[String],
    declared: &Names,
    conditions: &[Condition],
) -> Result<(), AllocError>
    ensures { OnOk result (out.new.items ≡ out.old.items ++ spec.lines_of_conditions (names files.now) declared.now conditions.now) }
{
    for condition in conditions {
        put_condition(alloc, out, files, declared, condition)?;
    }
    Ok(())
}

/// Adds the conditions of a subprogram, where they pass no limit.
fn put_sub(
    alloc: Global,
    program: &Program,
    id: SubId,
    out: &mut Vec<u8>,
    files: &[String],
    declared: &Names,
) -> Result<(), FindFault>
    requires id { id.0 < length program.now.subs }
    requires declared { declared.now ≡ spec.names_in program.now }
    ensures text { (sub : Sub) → slice_get program.now.subs id.0 ≡ Some sub → OnOk result (out.new.items ≡ out.old.items ++ spec.listed (names files.now) program.now sub) }
    ensures few { (sub : Sub) → slice_get program.now.subs id.0 ≡ Some sub → OnOk result (limit_of program.now sub ≡ None) }
    ensures limit { (sub : Sub) → slice_get program.now.subs id.0 ≡ Some sub → IfErr result (IsFaultOf (limit_of program.now sub)) }
{
    match conditions(alloc, program, id) {
        Ok(all) => {
            put_conditions(alloc, out, files, declared, all.as_slice())?;
            Ok(())
        }
        Err(VcFault::TooManyPaths(_)) => Err(FindFault::Limit(LimitName::Paths)),
        Err(VcFault::TooManyNodes(_)) => Err(FindFault::Limit(LimitName::Nodes)),
        Err(VcFault::Memory) => Err(FindFault::Memory),
    }
}

/// Adds the conditions of a body, where they pass no limit.
fn put_body(
    alloc: Global,
    program: &Program,
    id: SubId,
    out: &mut Vec<u8>,
    files: &[String],
    declared: &Names,
) -> Result<(), FindFault>
    requires { declared.now ≡ spec.names_in program.now }
    ensures text { OnOk result (out.new.items ≡ out.old.items ++ spec.listed_at (names files.now) program.now (slice_get program.now.subs id.0)) }
    ensures few { OnOk result (limit_at program.now (slice_get program.now.subs id.0) ≡ None) }
    ensures limit { IfErr result (IsFaultOf (limit_at program.now (slice_get program.now.subs id.0))) }
{
    match program.subs.get(id.0) {
        Some(_) => put_sub(alloc, program, id, out, files, declared),
        None => Ok(()),
    }
}

/// The text of the verification conditions of a program, whose files have these names.
pub fn conditions_text(
    alloc: Global,
    program: &Program,
    files: &[String],
) -> Result<Vec<u8>, FindFault>
    ensures text { IfOk result (λ text. text.items ≡ spec.conditions_text program.now (names files.now)) }
    ensures few { OnOk result (first_limit program.now ≡ None) }
    // The limit is the first that is passed, in the order of the bodies.
    ensures limit { IfErr result (IsFaultOf (first_limit program.now)) }
{
    let declared = names_in(alloc, program)?;
    let mut out = Vec::new(alloc);
    for id in program.bodies.as_slice() {
        put_body(alloc, program, *id, &mut out, files, &declared)?;
    }
    Ok(out)
}
