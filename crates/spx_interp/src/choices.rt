// Which arm of an `if` is run, and which alternative of a `case` (Ada 95 RM 5.3, 5.4).
ghost use Rattle.std.specs.Prelude.{◌≡◌, ◌<◌, ℕ, IfOk, IfSome, length, map};
ghost use Rattle.spx_core.specs.Commands.{Command, arm_before, arms_before, given_by, spans_of};
ghost use Rattle.spx_core.specs.Types.{is_chosen};
ghost use Rattle.spx_meaning.specs.Frames.{Frame};
ghost use Rattle.spx_meaning.specs.Runs.{has_value};
ghost use Rattle.spx_meaning.specs.Stores.{Store};
ghost use Rattle.spx_interp.specs.Results.{OnArm, alternative_at, arm_at, frame_of, ran, ran_alternatives};

use crate::body::Body;
use crate::evaluation::is_true;
use crate::stop::Stop;
use spx_core::{CoreAlternative, CoreArm, CoreChoice, Span};
use spx_meaning::{Value, as_number};
use sqlite_items::Items;

/// The values of a choice.
fn values_of(choice: &CoreChoice) -> Span
    ensures { result ≡ given_by choice.now.high choice.now.span }
{
    match &choice.high {
        Some(_) => choice.span,
        None => Span {
            first: choice.span.first,
            last: choice.span.first,
        },
    }
}

/// Whether one of the choices has the number.
fn is_chosen(number: i128, choices: &[CoreChoice]) -> bool
    ensures { result ≡ is_chosen number (spans_of choices.now) }
{
    for choice in choices {
        let values = values_of(choice);
        if values.first <= number && number <= values.last {
            return true;
        }
    }
    false
}

/// Whether one of the choices has the value. `others` has every value.
fn has_value(choices: &Option<Items<CoreChoice>>, value: &Value) -> bool
    ensures { result ≡ has_value choices.now value.now }
{
    match choices {
        Some(choices) => is_chosen(as_number(value), choices.as_slice()),
        None => true,
    }
}

/// The first arm whose condition is true, if there is one.
pub(crate) fn first_arm(
    body: &Body,
    turns: u64,
    store: &[Option<Value>],
    arms: &[CoreArm],
) -> Result<Option<usize>, Stop>
    ensures within { IfOk result (λ found. IfSome found (λ k. k < length arms.now)) }
    ensures runs { (otherwise : Command) → OnArm result (λ k. ran (frame_of body.now) turns store.now (arm_at arms.now k)) (ran (frame_of body.now) turns store.now otherwise) (ran (frame_of body.now) turns store.now (arms_before otherwise (map arm_before arms.now))) }
{
    for k in 0..arms.len() {
        match is_true(body, turns, store, arms[k].condition.get()) {
            Ok(true) => return Ok(Some(k)),
            Ok(false) => {}
            Err(stop) => return Err(stop),
        }
    }
    Ok(None)
}

/// The first alternative that has the value. The last one has all values that are left.
pub(crate) fn alternative_for(alternatives: &[CoreAlternative], value: &Value) -> usize
    requires { 0 < length alternatives.now }
    ensures within { result < length alternatives.now }
    ensures runs { (f : Frame) (n : ℕ) (s : Store) → ran_alternatives value.now f n s alternatives.now ≡ ran f n s (alternative_at alternatives.now result) }
{
    let last = alternatives.len() - 1;
    for k in 0..last {
        if has_value(&alternatives[k].choices, value) {
            return k;
        }
    }
    last
}
