// The values with which a body begins (Ada 95 RM 3.3.1, 6.4).
ghost use Rattle.std.specs.Prelude.{◌≡◌, IfOk, length, slice_get};
ghost use Rattle.spx_meaning.specs.Runs.{cleared, entry_of, initial_value, is_new_kind, is_new_var, starts_new};
ghost use Rattle.spx_interp.specs.Rooms.{VarsHaveRoom};

use crate::slots::put;
use spx_core::{Mode, Program, Sub, VarId, VarKind};
use spx_meaning::{Store, Value, copy_slots, initial_value, value_of};
use std::alloc::{AllocError, Global};

/// `out` formals and what is declared in a body take nothing over from the caller.
fn is_new_kind(kind: VarKind) -> bool
    ensures { result ≡ is_new_kind kind }
{
    match kind {
        VarKind::Formal(mode) => match mode {
            Mode::In | Mode::InOut => false,
            Mode::Out => true,
        },
        VarKind::Local | VarKind::Initialized(_) | VarKind::LoopParameter => true,
    }
}

/// Whether a variable of a subprogram has no value from before its body.
fn starts_new(program: &Program, var: VarId) -> bool
    ensures { result ≡ starts_new program.now var }
{
    match program.vars.get(var.0) {
        Some(var) => is_new_kind(var.kind),
        None => false,
    }
}

/// The value with which a variable is declared, if there is one.
fn declared_value(program: &Program, var: VarId) -> Option<Value>
    ensures { result ≡ initial_value program.now var }
{
    match initial_value(program, var) {
        Some(scalar) => Some(value_of(scalar)),
        None => None,
    }
}

/// Gives those of the variables that are new the values with which they are declared, and no others.
fn clear(program: &Program, store: &mut [Option<Value>], vars: &[VarId])
    requires { VarsHaveRoom (length store.old) vars.now }
    ensures { store.new ≡ cleared program.now store.old vars.now }
{
    let mut left = vars.len();
    while left > 0 {
        left -= 1;
        let var = vars[left];
        if starts_new(program, var) {
            put(store, var, declared_value(program, var));
        }
    }
}

/// The values with which the body of a subprogram begins, where it is called in this store.
pub(crate) fn entry_of(
    alloc: Global,
    program: &Program,
    sub: &Sub,
    store: &Store,
) -> Result<Vec<Option<Value>>, AllocError>
    requires { VarsHaveRoom (length store.now) sub.now.vars }
    ensures values { IfOk result (λ entry. entry.items ≡ entry_of program.now sub.now store.now) }
    ensures size { IfOk result (λ entry. length entry.items ≡ length store.now) }
{
    let mut entry = copy_slots(alloc, store.as_slice())?;
    clear(program, &mut entry, sub.vars.as_slice());
    Ok(entry)
}
