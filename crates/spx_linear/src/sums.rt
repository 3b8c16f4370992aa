// Sums and multiples of forms.
ghost use Rattle.std.specs.Prelude.{◌≡◌, Some, ◌<◌, length, IfSome};
ghost use Rattle.spx_num.specs.Exact.{exact};
ghost use Rattle.spx_num.specs.Widths.{fitting};
ghost use Rattle.spx_linear.specs.Answers.{Answers, Leaves};
ghost use Rattle.spx_linear.specs.Forms.{place_from, factor_at, with_part, with_parts, form_with, joined, scaled_part, scaled_parts, scaled, constant_form, atom_form};

use crate::{Form, LinearFault, Part};
use spx_num::{Op, checked};
use spx_term::{Term, same};
use sqlite_items::Items;
use std::alloc::{AllocError, Global};

/// The form of a literal.
pub fn constant_form(alloc: Global, constant: i128) -> Form
    ensures { result ≡ constant_form constant }
{
    Form {
        parts: Items::new(alloc),
        constant,
        equation: true,
    }
}

/// The form of a term that is an atom.
pub fn atom_form(alloc: Global, atom: &Term) -> Result<Form, LinearFault>
    ensures { Answers result (Some (atom_form atom.now)) }
{
    let atom = atom.copy(alloc)?;
    let mut parts = Items::new(alloc);
    parts.push(Part { factor: 1, atom })?;
    Ok(Form {
        parts,
        constant: 0,
        equation: true,
    })
}

/// The exact value, where it fits in 128 bits.
#[tactic(auto, using(spx_num::specs::Widths::fits_laws))]
fn fitted(op: Op, a: i128, b: i128) -> Result<i128, LinearFault>
    ensures { Answers result (fitting (exact op a b)) }
{
    Ok(checked(op, a, b)?)
}

/// The place of a term among the atoms.
fn place(parts: &[Part], atom: &Term) -> Option<usize>
    ensures place { result ≡ place_from 0 atom.now parts.now }
    ensures within { IfSome result (λ i. i < length parts.now) }
{
    for at in 0..parts.len() {
        if same(&parts[at].atom, atom) {
            return Some(at);
        }
    }
    None
}

/// The factor of the part at a place; of no part it is 0.
fn factor_at(place: Option<usize>, parts: &[Part]) -> i128
    ensures { result ≡ factor_at place parts.now }
{
    let Some(at) = place else {
        return 0;
    };
    match parts.get(at) {
        Some(part) => part.factor,
        None => 0,
    }
}

/// Adds a part to others, or subtracts it.
#[tactic(auto, unfolding(crate::specs::Forms::with_part))]
fn add_part(alloc: Global, op: Op, parts: &mut Items<Part>, part: &Part) -> Result<(), LinearFault>
    ensures { Leaves result parts.new (with_part op parts.old part.now) }
{
    let place = place(parts.as_slice(), &part.atom);
    let factor = fitted(op, factor_at(place, parts.as_slice()), part.factor)?;
    let atom = part.atom.copy(alloc)?;
    match place {
        Some(at) => parts.set(at, Part { factor, atom }),
        None => parts.push(Part { factor, atom })?,
    }
    Ok(())
}

/// Adds parts to others, or subtracts them.
fn add_parts(
    alloc: Global,
    op: Op,
    parts: &mut Items<Part>,
    others: &[Part],
) -> Result<(), LinearFault>
    ensures { Leaves result parts.new (with_parts op (Some parts.old) others.now) }
{
    for part in others {
        add_part(alloc, op, parts, part)?;
    }
    Ok(())
}

/// The sum or the difference of two forms.
#[tactic(auto, unfolding(crate::specs::Forms::joined))]
pub fn joined(alloc: Global, op: Op, form: Form, other: &Form) -> Result<Form, LinearFault>
    ensures { Answers result (joined op form other.now) }
{
    let Form {
        mut parts,
        constant,
        equation,
    } = form;
    add_parts(alloc, op, &mut parts, other.parts.as_slice())?;
    Ok(Form {
        parts,
        constant: fitted(op, constant, other.constant)?,
        equation: equation && other.equation,
    })
}

/// A multiple of a part.
#[tactic(auto, unfolding(crate::specs::Forms::scaled_part))]
fn scaled_part(alloc: Global, by: i128, part: &Part) -> Result<Part, LinearFault>
    ensures { Answers result (scaled_part by part.now) }
{
    let factor = fitted(Op::Mul, by, part.factor)?;
    let atom = part.atom.copy(alloc)?;
    Ok(Part { factor, atom })
}

/// A multiple of each part.
#[tactic(auto, using(crate::proofs::Multiples::multiples))]
fn scaled_parts(alloc: Global, by: i128, parts: &[Part]) -> Result<Items<Part>, LinearFault>
    ensures { Answers result (scaled_parts by parts.now) }
{
    let mut multiples = Items::new(alloc);
    for part in parts {
        let multiple = scaled_part(alloc, by, part)?;
        multiples.push(multiple)?;
    }
    Ok(multiples)
}

/// A multiple of a form.
#[tactic(auto, unfolding(crate::specs::Forms::scaled))]
pub fn scaled(alloc: Global, by: i128, form: &Form) -> Result<Form, LinearFault>
    ensures { Answers result (scaled by form.now) }
{
    Ok(Form {
        parts: scaled_parts(alloc, by, form.parts.as_slice())?,
        constant: fitted(Op::Mul, by, form.constant)?,
        equation: form.equation,
    })
}
