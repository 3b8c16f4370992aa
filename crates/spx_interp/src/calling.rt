// Calls of subprograms (Ada 95 RM 6.4).
ghost use Rattle.std.specs.Prelude.{◌≡◌, ◌<◌, length, slice_get, Some, None, Err, IfOk};
ghost use Rattle.spx_core.specs.declared.entity.VarId.{VarId};
ghost use Rattle.spx_core.specs.declared.subprogram.Sub.{Sub};
ghost use Rattle.spx_core.specs.Commands.{commands};
ghost use Rattle.spx_core.specs.Erased.{Visible};
ghost use Rattle.spx_core.specs.Obeyed.{Obeys};
ghost use Rattle.spx_meaning.specs.Runs.{exports_set};
ghost use Rattle.spx_meaning.specs.Stores.{look};
ghost use Rattle.spx_interp.specs.declared.fault.Finish.TheVariants.{Ended};
ghost use Rattle.spx_interp.specs.declared.fault.RunLimit.{RunLimit};
ghost use Rattle.spx_interp.specs.declared.fault.RunFault.TheVariants.{TooLarge};
ghost use Rattle.spx_interp.specs.Calls.{AreExports, IsCall, in_bits};
ghost use Rattle.spx_interp.specs.Results.{Done, body_ended, body_ran, call_ran, frame_of, outcome_of, predicate_looked_at};
ghost use Rattle.spx_interp.specs.Rooms.{HasRoom, VarsHaveRoom};

use crate::body::Body;
use crate::entry::entry_of;
use crate::fault::{Finish, RunFault, RunLimit};
use crate::slots::look;
use crate::statements::{look_at, run_stmts};
use crate::step::Step;
use spx_core::laws::{names_are_scoped, rules_hold};
use spx_core::{CorePredicate, Program, Sub, SubId, VarSet};
use spx_meaning::{Bad, BadKind, Store, Value, copy_slots, has_many_elements};
use std::alloc::Global;

/// Looks at a precondition or a postcondition. None is true.
fn look_at_predicate(
    body: &Body,
    store: &[Option<Value>],
    kind: BadKind,
    predicate: &Option<CorePredicate>,
) -> Result<Step, RunFault>
    ensures { Done result store.now (predicate_looked_at (frame_of body.now) store.now kind predicate.now) }
{
    match predicate {
        Some(predicate) => look_at(
            body,
            store,
            kind,
            predicate.place,
            predicate.condition.get(),
        ),
        None => Ok(Step::Ended),
    }
}

/// Whether each export among the formals is set.
fn exports_set(sub: &Sub, exports: &VarSet, store: &[Option<Value>]) -> bool
    requires { AreExports sub.now exports.now }
    ensures { result ≡ exports_set sub.now store.now }
{
    for var in sub.formals() {
        if exports.contains(*var) && look(store, *var).is_none() {
            return false;
        }
    }
    true
}

/// Looks at what must hold at the end: each export is set, and the postcondition is true.
fn end_body(body: &Body, exports: &VarSet, store: &[Option<Value>]) -> Result<Step, RunFault>
    requires { AreExports body.now.sub.now exports.now }
    ensures { Done result store.now (body_ended (frame_of body.now) store.now) }
{
    if exports_set(body.sub, exports, store) {
        look_at_predicate(body, store, BadKind::Post, &body.sub.post)
    } else {
        Ok(Step::Failed(Bad {
            kind: BadKind::Unset,
            place: body.sub.end,
        }))
    }
}

/// Runs the body from the store with which it begins.
fn run_body(
    body: &Body,
    exports: &VarSet,
    turns: u64,
    store: &mut [Option<Value>],
) -> Result<Step, RunFault>
    requires exports { AreExports body.now.sub.now exports.now }
    requires entry { store.old ≡ body.now.entry.now }
    requires room { HasRoom (length store.old) (commands body.now.sub.now.statements) }
    ensures { Done result store.new (body_ran (frame_of body.now) turns) }
{
    let before = look_at_predicate(body, store, BadKind::Pre, &body.sub.pre)?;
    if !before.has_ended() {
        return Ok(before);
    }
    let step = run_stmts(body, turns, store, body.sub.statements.as_slice())?;
    if !step.has_ended() {
        return Ok(step);
    }
    end_body(body, exports, store)
}

/// The values after a call, and how it ends.
#[derive(Drop)]
struct Run {
    slots: Vec<Option<Value>>,
    step: Step,
}

/// Runs a subprogram over a copy of the store.
fn run_sub(
    alloc: Global,
    program: &Program,
    sub: &Sub,
    store: &Store,
    turns: u64,
) -> Result<Run, RunFault>
    requires size { length store.now ≡ length program.now.vars }
    requires vars { VarsHaveRoom (length program.now.vars) sub.now.vars }
    requires room { HasRoom (length program.now.vars) (commands sub.now.statements) }
    ensures ran { IfOk result (λ run. call_ran program.now turns sub.now store.now ≡ Some (outcome_of run.step run.slots.items)) }
    ensures size { IfOk result (λ run. length run.slots.items ≡ length program.now.vars) }
    ensures limit { (limit : RunLimit) → result ≡ Err (TooLarge limit) → call_ran program.now turns sub.now store.now ≡ None }
{
    let exports = VarSet::exports(alloc, sub)?;
    let entry = entry_of(alloc, program, sub, store)?;
    let mut slots = copy_slots(alloc, entry.as_slice())?;
    let body = Body {
        program,
        sub,
        entry: entry.as_slice(),
        alloc,
    };
    let step = run_body(&body, &exports, turns, &mut slots)?;
    Ok(Run { slots, step })
}

/// The fault of a run, in which the limit can only be that on bits.
fn in_bits(fault: RunFault) -> RunFault
    ensures { result ≡ in_bits fault }
{
    match fault {
        RunFault::TooLarge(_) => RunFault::TooLarge(RunLimit::Bits),
        RunFault::Memory => RunFault::Memory,
    }
}

/// Runs a call of a subprogram within a bound on the turns of its loops. The store changes only where the call has ended.
pub fn call(
    alloc: Global,
    program: &Program,
    id: SubId,
    store: &mut Store,
    turns: u64,
) -> Result<Finish, RunFault>
    requires visible { Visible program.now }
    requires obeys { Obeys program.now }
    requires id { id.0 < length program.now.subs }
    requires room { length store.old ≡ length program.now.vars }
    ensures runs { (sub : Sub) → slice_get program.now.subs id.0 ≡ Some sub → IsCall program.now sub turns store.old result store.new }
    ensures room { length store.new ≡ length program.now.vars }
{
    names_are_scoped();
    rules_hold();
    let sub = &program.subs.as_slice()[id.0];
    if has_many_elements(alloc, program, sub)? {
        return Err(RunFault::TooLarge(RunLimit::Elements));
    }
    let run = match run_sub(alloc, program, sub, store, turns) {
        Ok(run) => run,
        Err(fault) => return Err(in_bits(fault)),
    };
    match run.step {
        Step::Ended => {
            *store = Store::from_values(run.slots);
            Ok(Finish::Ended)
        }
        Step::Left => unreachable!("no exit stands outside a loop"),
        Step::Failed(bad) => Ok(Finish::Faulted(bad)),
        Step::Later => Ok(Finish::Later),
    }
}

/// The store with which a program begins, and how its elaboration ends. There is nothing to run, and each variable is unset.
pub fn elaborate(alloc: Global, program: &Program, _turns: u64) -> Result<(Store, Finish), RunFault>
    ensures room { IfOk result (λ r. length r.0 ≡ length program.now.vars) }
    ensures unset { IfOk result (λ r. (var : VarId) → look r.0 var ≡ None) }
    ensures ended { IfOk result (λ r. r.1 ≡ Ended) }
{
    let store = Store::new(alloc, program)?;
    Ok((store, Finish::Ended))
}
