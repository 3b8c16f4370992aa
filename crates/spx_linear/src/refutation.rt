// Certificates.
ghost use Rattle.std.specs.Prelude.{◌≡◌, ◌||◌, Some, length, pos, int_le};
ghost use Rattle.std.specs.List.{list_all};
ghost use Rattle.spx_linear.specs.Answers.{Answers};
ghost use Rattle.spx_linear.specs.Forms.{constant_form};
ghost use Rattle.spx_linear.specs.Refutation.{is_allowed, with_multiple, sum_from, has_no_factor, is_never, refutation};

use crate::sums::{constant_form, joined, scaled};
use crate::{Form, LinearFault, Part};
use spx_num::Op;
use std::alloc::Global;

/// Whether a form may have this multiplier.
fn allows(form: &Form, multiplier: i128) -> bool
    ensures { result ≡ (form.now.equation || int_le (pos 0) multiplier) }
{
    form.equation || multiplier >= 0
}

/// Whether no inequality has a negative multiplier.
fn is_allowed(forms: &[Form], multipliers: &[i128]) -> bool
    requires { length forms.now ≡ length multipliers.now }
    ensures { result ≡ is_allowed forms.now multipliers.now }
{
    for at in 0..forms.len() {
        if !allows(&forms[at], multipliers[at]) {
            return false;
        }
    }
    true
}

/// The sum so far and a multiple of a form.
#[tactic(auto, unfolding(crate::specs::Refutation::with_multiple))]
fn with_multiple(
    alloc: Global,
    sum: Form,
    form: &Form,
    multiplier: i128,
) -> Result<Form, LinearFault>
    ensures { Answers result (with_multiple sum form.now multiplier) }
{
    let multiple = scaled(alloc, multiplier, form)?;
    joined(alloc, Op::Add, sum, &multiple)
}

/// The sum of the multiples.
fn sum(alloc: Global, forms: &[Form], multipliers: &[i128]) -> Result<Form, LinearFault>
    requires { length forms.now ≡ length multipliers.now }
    ensures { Answers result (sum_from (Some (constant_form (pos 0))) forms.now multipliers.now) }
{
    let mut sum = constant_form(alloc, 0);
    for at in 0..forms.len() {
        sum = with_multiple(alloc, sum, &forms[at], multipliers[at])?;
    }
    Ok(sum)
}

/// Whether all factors are 0.
fn have_no_factor(parts: &[Part]) -> bool
    ensures { result ≡ list_all has_no_factor parts.now }
{
    for part in parts {
        if part.factor != 0 {
            return false;
        }
    }
    true
}

/// Whether a form is a constant below 0, or above 0 where it is an equation.
#[tactic(auto, unfolding(crate::specs::Refutation::is_never))]
fn is_never(form: &Form) -> bool
    ensures { result ≡ is_never form.now }
{
    if !have_no_factor(form.parts.as_slice()) {
        return false;
    }
    form.constant < 0 || form.equation && form.constant > 0
}

/// Whether the sum of the forms, each by its multiplier, is a constant that contradicts it: one below 0, or above 0 where all are
/// equations. A negative multiplier of an inequality refutes nothing, however wide the numbers are.
#[tactic(auto, unfolding(crate::specs::Refutation::refutation))]
pub fn refutes(alloc: Global, forms: &[Form], multipliers: &[i128]) -> Result<bool, LinearFault>
    requires { length forms.now ≡ length multipliers.now }
    ensures { Answers result (refutation forms.now multipliers.now) }
{
    if !is_allowed(forms, multipliers) {
        return Ok(false);
    }
    let sum = sum(alloc, forms, multipliers)?;
    Ok(is_never(&sum))
}
