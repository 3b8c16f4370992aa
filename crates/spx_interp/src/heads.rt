// What loops look at before a turn, and after it (Ada 95 RM 5.5).
ghost use Rattle.std.specs.Prelude.{◌≡◌, ◌≢◌, ◌||◌, ◌&&◌, ℤ, Bool, true, not, int_le};
ghost use Rattle.spx_core.specs.Commands.{head_of};
ghost use Rattle.spx_term.specs.declared.value.Value.TheVariants.{Number};
ghost use Rattle.spx_meaning.specs.Stores.{Store, lies_in, type_of};
ghost use Rattle.spx_meaning.specs.Runs.{Outcome, end_of, start_of, value_after, with_bounds};
ghost use Rattle.spx_meaning.specs.Limits.{passes_after_bounds};
ghost use Rattle.spx_interp.specs.Results.{IsWay, OnBounds, WhereBounds, frame_of, test_of, truth_answered};

use crate::body::Body;
use crate::evaluation::{eval, is_true};
use crate::stop::Stop;
use spx_core::{CoreCount, CoreScheme, Span, Subtype};
use spx_meaning::{Bad, BadKind, Value, lies_in, type_of};

/// Whether a loop takes another turn, as far as its condition says. One without a condition does.
pub(crate) fn goes_on(
    body: &Body,
    turns: u64,
    store: &[Option<Value>],
    scheme: &CoreScheme,
) -> Result<bool, Stop>
    ensures { truth_answered result (test_of (frame_of body.now) turns store.now (head_of scheme.now)) }
{
    match scheme {
        CoreScheme::While(_, condition) => is_true(body, turns, store, condition.get()),
        CoreScheme::For(_) | CoreScheme::Endless => Ok(true),
    }
}

/// Whether both bounds lie in the type, where there is a value between them.
fn are_in_type(subtype: Subtype, bounds: Span) -> bool
    ensures { result ≡ (not (int_le bounds.first bounds.last) || (lies_in subtype (Number bounds.first) && lies_in subtype (Number bounds.last))) }
{
    bounds.first > bounds.last
        || lies_in(subtype, &Value::Number(bounds.first))
            && lies_in(subtype, &Value::Number(bounds.last))
}

/// The bounds of a loop that counts. Where none are written, they are the ends of the type.
pub(crate) fn bounds_of(
    body: &Body,
    turns: u64,
    store: &[Option<Value>],
    count: &CoreCount,
) -> Result<Span, Stop>
    ensures runs { (go : (low high : ℤ) → Store → Outcome) → OnBounds result store.now go (with_bounds (frame_of body.now) turns store.now (type_of body.now.program.now count.now.parameter) count.now.bounds go) }
    ensures passes { (test : (low high : ℤ) → Store → Bool) → WhereBounds result store.now test (passes_after_bounds (frame_of body.now) turns store.now (type_of body.now.program.now count.now.parameter) count.now.bounds test) }
{
    let subtype = type_of(body.program, count.parameter);
    let Some(range) = &count.bounds else {
        return Ok(Span {
            first: subtype.first,
            last: subtype.last,
        });
    };
    let low = range.low.get();
    let first = eval(body, turns, store, low)?.as_number();
    let last = eval(body, turns, store, range.high.get())?.as_number();
    let bounds = Span { first, last };
    if are_in_type(subtype, bounds) {
        Ok(bounds)
    } else {
        Err(Stop::Failed(Bad {
            kind: BadKind::Range,
            place: low.place(),
        }))
    }
}

/// The values of the parameter in the first turn and in the last one.
pub(crate) fn way_of(count: &CoreCount, bounds: Span) -> Span
    requires { int_le bounds.first bounds.last ≡ true }
    ensures first { result.first ≡ start_of count.now bounds.first bounds.last }
    ensures last { result.last ≡ end_of count.now bounds.first bounds.last }
    ensures way { IsWay count.now result.first result.last }
{
    if count.is_reverse {
        Span {
            first: bounds.last,
            last: bounds.first,
        }
    } else {
        bounds
    }
}

/// The value of the parameter in the next turn. There is one, since this is not the last.
pub(crate) fn value_after(count: &CoreCount, value: i128, last: i128) -> i128
    requires way { IsWay count.now value last }
    requires more { value ≢ last }
    ensures value { result ≡ value_after count.now value }
    ensures way { IsWay count.now result last }
{
    if count.is_reverse {
        value - 1
    } else {
        value + 1
    }
}
