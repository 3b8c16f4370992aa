// The values of variables during a run, by the variables' positions. None is that of an unset one.
ghost use Rattle.std.specs.Prelude.{◌≡◌, ◌<◌, None, Some, length};
ghost use Rattle.std.specs.Option.{option_copied};
ghost use Rattle.spx_term.specs.declared.value.Value.TheVariants.{Number};
ghost use Rattle.spx_meaning.specs.Stores.{look, put};

use spx_core::VarId;
use spx_meaning::Value;
use sqlite_items::at;

/// The value of a variable, if it is set.
#[tactic(auto, using(spx_meaning::proofs::StoreValues::look_is))]
pub(crate) fn look(slots: &[Option<Value>], var: VarId) -> Option<&Value>
    ensures { option_copied result ≡ look slots.now var }
{
    at(slots, var.0)?.as_ref()
}

/// Gives the variable a value, or takes it away.
#[tactic(auto, using(spx_meaning::proofs::StoreValues::put_is))]
pub(crate) fn put(slots: &mut [Option<Value>], var: VarId, value: Option<Value>)
    requires { var.0 < length slots.old }
    ensures { slots.new ≡ put slots.old var value }
{
    slots[var.0] = value;
}

/// Gives the variable a number.
pub(crate) fn put_number(slots: &mut [Option<Value>], var: VarId, number: i128)
    requires { var.0 < length slots.old }
    ensures { slots.new ≡ put slots.old var (Some (Number number)) }
{
    put(slots, var, Some(Value::Number(number)));
}

/// Takes the value of the variable away, if it has one.
#[tactic(auto, using(spx_meaning::proofs::StoreValues::put_is))]
pub(crate) fn unset(slots: &mut [Option<Value>], var: VarId)
    requires { var.0 < length slots.old }
    ensures { slots.new ≡ put slots.old var None }
{
    slots[var.0] = None;
}

/// Takes the value of the variable out, if it has one.
#[tactic(auto, using(spx_meaning::proofs::StoreValues::look_is, spx_meaning::proofs::StoreValues::put_is))]
pub(crate) fn take(slots: &mut [Option<Value>], var: VarId) -> Option<Value>
    requires { var.0 < length slots.old }
    ensures value { result ≡ look slots.old var }
    ensures rest { slots.new ≡ put slots.old var None }
{
    let slot = &mut slots[var.0];
    slot.take()
}
