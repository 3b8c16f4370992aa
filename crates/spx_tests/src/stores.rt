// Stores.
ghost use Rattle.std.specs.Prelude.{◌≡◌, length, IfOk};

use spx_core::{INTEGER, Mode, Program, Var, VarId, VarKind};
use spx_interp::{Finish, elaborate};
use spx_meaning::{Store, Value, as_number, as_truth};
use spx_text::Text;
use sqlite_items::Items;
use std::alloc::{AllocError, Global};
use std::test::Fail;

const X: VarId = VarId(0);

const Y: VarId = VarId(1);

fn var(alloc: Global, name: &str, kind: VarKind) -> Result<Var, AllocError> {
    Ok(Var {
        name: Text::new(alloc, name.as_bytes())?,
        kind,
        type_id: INTEGER.id,
    })
}

fn program(alloc: Global) -> Result<Program, AllocError>
    ensures { IfOk result (λ p. length p.vars ≡ 2) }
{
    let mut vars = Items::new(alloc);
    vars.push(var(alloc, "X", VarKind::Formal(Mode::InOut))?)?;
    vars.push(var(alloc, "Y", VarKind::Initialized(5))?)?;
    Ok(Program {
        units: Items::new(alloc),
        types: Items::new(alloc),
        vars,
        subs: Items::new(alloc),
        bodies: Items::new(alloc),
    })
}

/// The number of a variable, if it is set.
fn number_of(store: &Store, var: VarId) -> Option<i128> {
    match store.get(var) {
        Some(value) => Some(as_number(value)),
        None => None,
    }
}

/// The truth value of a variable, if it is set.
fn truth_of(store: &Store, var: VarId) -> Option<bool> {
    match store.get(var) {
        Some(value) => Some(as_truth(value)),
        None => None,
    }
}

#[test]
fn a_store_keeps_what_it_is_given(rt: HostRuntime) -> Result<(), Fail> {
    let alloc = rt.alloc();
    let mut store = Store::new(alloc, &program(alloc)?)?;
    assert_eq!(rt; number_of(&store, X), None);
    assert_eq!(rt; truth_of(&store, Y), None);
    store.set(X, Value::Number(7));
    assert_eq!(rt; number_of(&store, X), Some(7));
    assert_eq!(rt; truth_of(&store, Y), None);
    let copied = store.copy(alloc)?;
    store.set(Y, Value::Truth(true));
    store.unset(X);
    assert_eq!(rt; number_of(&store, X), None);
    assert_eq!(rt; truth_of(&store, Y), Some(true));
    assert_eq!(rt; number_of(&copied, X), Some(7));
    assert_eq!(rt; truth_of(&copied, Y), None);
    Ok(())
}

#[test]
fn variables_are_unset_at_the_beginning(rt: HostRuntime) -> Result<(), Fail> {
    let program = program(rt.alloc())?;
    match elaborate(rt.alloc(), &program, 0) {
        Ok((store, finish)) => {
            assert_eq!(rt; number_of(&store, X), None);
            assert_eq!(rt; finish, Finish::Ended);
        }
        Err(_) => assert!(rt; false),
    }
    Ok(())
}
