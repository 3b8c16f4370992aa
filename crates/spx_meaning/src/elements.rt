// How many array elements the variables of a subprogram have.
ghost use Rattle.std.specs.Prelude.{◌≡◌, ◌+◌, ◌*◌, [], map, IfOk};
ghost use Rattle.std.specs.List.{sum};
ghost use Rattle.spx_core.specs.declared.program.Field.{Field};
ghost use Rattle.spx_term.specs.Values.{count};
ghost use Rattle.spx_meaning.specs.Elements as elements;
ghost use Rattle.spx_meaning.specs.Mirror.{capped};

use crate::types::type_of;
use spx_core::{Field, Program, Sub, Subtype, TypeForm, TypeId};
use sqlite_items::Items;
use std::alloc::{AllocError, Global};

/// The most array elements of the variables of a run.
const MOST_ELEMENTS: u64 = 1_000_000;

/// A sum, counted up to one past the most.
fn capped_sum(left: u64, right: u64) -> u64
    ensures { result ≡ capped (left + right) }
{
    left.saturating_add(right).min(MOST_ELEMENTS + 1)
}

/// A product, counted so.
fn capped_product(left: u64, right: u64) -> u64
    ensures { result ≡ capped (left * right) }
{
    left.saturating_mul(right).min(MOST_ELEMENTS + 1)
}

/// How many indexes there are, counted so.
fn capped_count(index: &Subtype) -> u64
    ensures { result ≡ capped (count index.now.first index.now.last) }
{
    if index.last < index.first {
        return 0;
    }
    match index.last.checked_sub(index.first) {
        Some(steps) if steps < MOST_ELEMENTS as i128 => steps as u64 + 1,
        _ => MOST_ELEMENTS + 1,
    }
}

fn elements_at(counts: &[u64], id: TypeId) -> u64
    ensures { result ≡ elements.elements_at counts.now id }
{
    counts.get(id.0).copied().unwrap_or(0)
}

/// The elements in a value of each of these fields, counted so.
fn elements_in_fields(counts: &[u64], fields: &[Field]) -> u64
    ensures { result ≡ capped (sum (map (λ (field : Field). elements.elements_at counts.now field.subtype.base.id) fields.now)) }
{
    let mut total = 0;
    for field in fields {
        total = capped_sum(total, elements_at(counts, field.subtype.base.id));
    }
    total
}

/// The elements in a value that is made of this, counted so.
fn elements_in(counts: &[u64], form: &TypeForm) -> u64
    ensures { result ≡ capped (elements.elements_in counts.now form.now) }
{
    match form {
        TypeForm::Scalar => 0,
        TypeForm::Array(index, element) => {
            let each = capped_sum(elements_at(counts, element.get().base.id), 1);
            capped_product(capped_count(index.get()), each)
        }
        TypeForm::Record(fields) => elements_in_fields(counts, fields.as_slice()),
    }
}

/// Those in a value of each type of the program, counted so.
fn elements_by_type(alloc: Global, program: &Program) -> Result<Items<u64>, AllocError>
    ensures { IfOk result (λ counts. counts ≡ map capped (elements.elements_after [] program.now.types)) }
{
    let mut counts = Items::new(alloc);
    for row in program.types.as_slice() {
        counts.push(elements_in(counts.as_slice(), &row.form))?;
    }
    Ok(counts)
}

/// Those of all variables of a subprogram, counted so.
fn elements_of(alloc: Global, program: &Program, sub: &Sub) -> Result<u64, AllocError>
    ensures { IfOk result (λ total. total ≡ capped (elements.elements_of program.now sub.now)) }
{
    let counts = elements_by_type(alloc, program)?;
    let mut total = 0;
    for var in sub.vars.as_slice() {
        let id = type_of(program, *var).base.id;
        total = capped_sum(total, elements_at(counts.as_slice(), id));
    }
    Ok(total)
}

/// Whether the variables of a subprogram have more array elements than a run may have: more than 1,000,000 together.
pub fn has_many_elements(alloc: Global, program: &Program, sub: &Sub) -> Result<bool, AllocError>
    ensures { IfOk result (λ passed. passed ≡ elements.has_many_elements program.now sub.now) }
{
    Ok(elements_of(alloc, program, sub)? > MOST_ELEMENTS)
}
