// The forms of terms and of comparisons.
ghost use Rattle.std.specs.Prelude.{◌≡◌, true};
ghost use Rattle.spx_num.specs.declared.arithmetic.Op.TheVariants.{Sub};
ghost use Rattle.spx_linear.specs.Answers.{Answers};
ghost use Rattle.spx_linear.specs.Forms.{joined, two};
ghost use Rattle.spx_linear.specs.Linear.{number_in, is_listed, is_comparison, form_of, at_least_zero, above_zero, linear_form};

use crate::sums::{atom_form, constant_form, joined, scaled};
use crate::{Form, LinearFault};
use spx_num::Op;
use spx_term::{Term, TermOp, TermPrefix, is_numeric};
use std::alloc::Global;

/// How many levels of sums, differences, negations and products a side of a comparison has at most. One of more levels is
/// refused as where memory runs out. A level takes at most 952 bytes of the stack, and 2000 of them leave room for the copy of an atom.
pub const MOST_SUMS: u32 = 2_000;

/// Whether a comparison by this operator is one of integers, where the left operand is seen to be a number or not. `/=` is not listed.
fn is_listed(op: TermOp, numeric: bool) -> bool
    ensures { result ≡ is_listed op numeric }
{
    match op {
        TermOp::Equal => numeric,
        TermOp::Less | TermOp::LessOrEqual | TermOp::Greater | TermOp::GreaterOrEqual => true,
        TermOp::NotEqual => false,
        TermOp::Add | TermOp::Subtract | TermOp::Multiply | TermOp::Divide => false,
        TermOp::Rem | TermOp::Mod | TermOp::Power => false,
        TermOp::And | TermOp::Or | TermOp::Implies | TermOp::Equivalent => false,
    }
}

/// Whether a term is a comparison of integers other than `/=`. `=` compares integers where its left operand is seen to be a number.
#[tactic(auto, using(crate::specs::Linear::comparison_forms))]
pub fn is_comparison(term: &Term) -> bool
    ensures { result ≡ is_comparison term.now }
{
    match term {
        Term::Infix(op, left, _) => is_listed(*op, is_numeric(left.get())),
        _ => false,
    }
}

/// The literal that a term is.
fn number_in(term: &Term) -> Option<i128>
    ensures { result ≡ number_in term.now }
{
    match term {
        Term::Number(value) => Some(*value),
        _ => None,
    }
}

/// The form of a term. One of more than so many levels is refused.
#[cycle(form)]
#[tactic(auto, using(crate::specs::Linear::term_forms))]
fn term_form(alloc: Global, term: &Term, levels: u32) -> Result<Form, LinearFault>
    ensures { Answers result (form_of term.now) }
{
    let levels = levels.checked_sub(1).ok_or(LinearFault::Memory)?;
    match term {
        Term::Number(value) => Ok(constant_form(alloc, *value)),
        Term::Prefix(op, operand) => match op {
            TermPrefix::Minus => {
                let operand = term_form(alloc, operand.get(), levels)?;
                scaled(alloc, -1, &operand)
            }
            TermPrefix::Abs | TermPrefix::Not => atom_form(alloc, term),
        },
        Term::Infix(op, left, right) => match op {
            TermOp::Add => {
                let left = term_form(alloc, left.get(), levels)?;
                let right = term_form(alloc, right.get(), levels)?;
                joined(alloc, Op::Add, left, &right)
            }
            TermOp::Subtract => {
                let left = term_form(alloc, left.get(), levels)?;
                let right = term_form(alloc, right.get(), levels)?;
                joined(alloc, Op::Sub, left, &right)
            }
            TermOp::Multiply => match (number_in(left.get()), number_in(right.get())) {
                (Some(by), _) => {
                    let right = term_form(alloc, right.get(), levels)?;
                    scaled(alloc, by, &right)
                }
                (None, Some(by)) => {
                    let left = term_form(alloc, left.get(), levels)?;
                    scaled(alloc, by, &left)
                }
                (None, None) => atom_form(alloc, term),
            },
            _ => atom_form(alloc, term),
        },
        _ => atom_form(alloc, term),
    }
}

/// The form of the difference of two terms.
fn difference(alloc: Global, left: &Term, right: &Term) -> Result<Form, LinearFault>
    ensures { Answers result (two (joined Sub) (form_of left.now) (form_of right.now)) }
{
    let left = term_form(alloc, left, MOST_SUMS)?;
    let right = term_form(alloc, right, MOST_SUMS)?;
    joined(alloc, Op::Sub, left, &right)
}

/// The form which says that what this one stands for is at least 0.
fn at_least_zero(form: Form) -> Form
    ensures { result ≡ at_least_zero form }
{
    Form {
        parts: form.parts,
        constant: form.constant,
        equation: false,
    }
}

/// The form which says that what this one stands for is above 0.
fn above_zero(alloc: Global, form: Form) -> Result<Form, LinearFault>
    ensures { Answers result (above_zero form) }
{
    let one = constant_form(alloc, 1);
    let form = joined(alloc, Op::Sub, form, &one)?;
    Ok(at_least_zero(form))
}

/// The form of a comparison of integers other than `/=`.
///
/// Of `a = b` it stands for `a - b`, of `a <= b` for `b - a`, and of `a < b` for `b - a - 1`. Its atoms are the greatest parts
/// that are no literals, sums, differences, negations or products with a literal.
#[tactic(auto, using(crate::specs::Linear::comparison_forms))]
pub fn linear_form(alloc: Global, term: &Term) -> Result<Form, LinearFault>
    requires { is_comparison term.now ≡ true }
    ensures { Answers result (linear_form term.now) }
{
    match term {
        Term::Infix(op, left, right) => match op {
            TermOp::Equal => difference(alloc, left.get(), right.get()),
            TermOp::Less => {
                let form = difference(alloc, right.get(), left.get())?;
                above_zero(alloc, form)
            }
            TermOp::LessOrEqual => {
                let form = difference(alloc, right.get(), left.get())?;
                Ok(at_least_zero(form))
            }
            TermOp::Greater => {
                let form = difference(alloc, left.get(), right.get())?;
                above_zero(alloc, form)
            }
            TermOp::GreaterOrEqual => {
                let form = difference(alloc, left.get(), right.get())?;
                Ok(at_least_zero(form))
            }
            _ => unreachable!(),
        },
        _ => unreachable!(),
    }
}
