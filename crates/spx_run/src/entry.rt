// A run of a subprogram with inputs.
ghost use Rattle.std.specs.Prelude.{◌≡◌, ◌<◌, ◌++◌, [], ◌∷◌, length, slice_get, Some, IfOk, IfSome, OnOk};
ghost use Rattle.std.specs.List.{cons_option};
ghost use Rattle.spx_core.specs.Erased.{Visible};
ghost use Rattle.spx_core.specs.Obeyed.{Obeys};
ghost use Rattle.spx_interp.specs.Calls.{AreExports};
ghost use Rattle.spx_run.specs.declared.result.InputFinding.TheVariants.{NoSubprogram};
ghost use Rattle.spx_run.specs.declared.result.RunResult.TheVariants.{Ended, Refused};
ghost use Rattle.spx_run.specs.Given.{entry_named};
ghost use Rattle.spx_run.specs.Mirror.{AreImports, ImportsAreDeclared};
ghost use Rattle.spx_run.specs.Results as spec;
ghost use Rattle.spx_run.specs.Results.{result_of};

use crate::given::{Entry, findings_of, give_all, var_name};
use crate::inputs::InputLine;
use crate::result::{InputFinding, Output, RunResult};
use spx_core::laws::names_are_scoped;
use spx_core::{Program, Sub, SubId, VarId, VarSet};
use spx_interp::{Finish, RunFault, RunLimit, call};
use spx_meaning::Store;
use spx_report::LimitName;
use spx_text::Text;
use sqlite_items::Items;
use std::alloc::{AllocError, Global};

/// The position of the subprogram of this name.
fn entry_named(program: &Program, name: &Text) -> Option<usize>
    ensures named { result ≡ entry_named program.now name.now }
    ensures within { IfSome result (λ k. k < length program.now.subs) }
{
    program
        .subs
        .as_slice()
        .iter()
        .position(|sub| sub.name.name.text.is_same_word(name))
}

/// Adds the value of an export, if it has one.
fn add_output(
    alloc: Global,
    program: &Program,
    store: &Store,
    var: VarId,
    outputs: &mut Items<Output>,
) -> Result<(), AllocError>
    ensures { OnOk result (outputs.new ≡ outputs.old ++ cons_option (spec.output_of program.now store.now var) []) }
{
    match store.get(var) {
        Some(value) => {
            let name = Text::new(alloc, var_name(program, var))?;
            let value = value.copy(alloc)?;
            outputs.push(Output { name, value })
        }
        None => Ok(()),
    }
}

/// The exports with their values, in the order of the formals.
fn outputs(
    alloc: Global,
    program: &Program,
    sub: &Sub,
    exports: &VarSet,
    store: &Store,
) -> Result<Items<Output>, AllocError>
    requires { AreExports sub.now exports.now }
    ensures { IfOk result (λ outputs. outputs ≡ spec.outputs program.now sub.now store.now) }
{
    let mut outputs = Items::new(alloc);
    for var in sub.formals() {
        if exports.contains(*var) {
            add_output(alloc, program, store, *var, &mut outputs)?;
        }
    }
    Ok(outputs)
}

/// A run that has ended with this store.
fn ended(
    alloc: Global,
    program: &Program,
    sub: &Sub,
    store: &Store,
) -> Result<RunResult, AllocError>
    ensures { IfOk result (λ found. found ≡ Ended (spec.outputs program.now sub.now store.now)) }
{
    let exports = VarSet::exports(alloc, sub)?;
    let outputs = outputs(alloc, program, sub, &exports, store)?;
    Ok(RunResult::Ended(outputs))
}

/// What the call comes to at this bound.
fn run_call(
    alloc: Global,
    program: &Program,
    id: SubId,
    sub: &Sub,
    turns: u64,
    store: Store,
) -> Result<RunResult, AllocError>
    requires visible { Visible program.now }
    requires obeys { Obeys program.now }
    requires id { id.0 < length program.now.subs }
    requires sub { slice_get program.now.subs id.0 ≡ Some sub.now }
    requires room { length store ≡ length program.now.vars }
    ensures { IfOk result (λ found. found ≡ spec.result_of_call program.now sub.now turns store) }
{
    let mut store = store;
    match call(alloc, program, id, &mut store, turns) {
        Ok(Finish::Ended) => ended(alloc, program, sub, &store),
        Ok(Finish::Faulted(bad)) => Ok(RunResult::Faulted(bad)),
        Ok(Finish::Later) => Ok(RunResult::NotEnded(turns)),
        Err(RunFault::TooLarge(RunLimit::Elements)) => {
            Ok(RunResult::TooLarge(LimitName::Elements))
        }
        Err(RunFault::TooLarge(RunLimit::Bits)) => Ok(RunResult::TooLarge(LimitName::Bits)),
        Err(RunFault::Memory) => Err(AllocError),
    }
}

/// What the run of a subprogram comes to, with inputs from the file of this number.
fn run_entry(
    alloc: Global,
    entry: &Entry,
    id: SubId,
    turns: u64,
    file: u32,
    inputs: &[InputLine],
) -> Result<RunResult, AllocError>
    requires visible { Visible entry.now.program.now }
    requires obeys { Obeys entry.now.program.now }
    requires id { id.0 < length entry.now.program.now.subs }
    requires sub { slice_get entry.now.program.now.subs id.0 ≡ Some entry.now.sub.now }
    requires imports { AreImports entry.now.sub.now entry.now.imports.now }
    requires declared { ImportsAreDeclared entry.now.program.now entry.now.sub.now }
    ensures { IfOk result (λ found. found ≡ spec.result_on entry.now.program.now (Some entry.now.sub.now) turns file inputs.now) }
{
    let mut store = Store::new(alloc, entry.program)?;
    let found = findings_of(alloc, entry, &store, file, inputs)?;
    if !found.is_empty() {
        return Ok(RunResult::Refused(found));
    }
    give_all(entry, &mut store, inputs);
    run_call(alloc, entry.program, id, entry.sub, turns, store)
}

/// What the run of the subprogram at this position comes to.
fn run_sub(
    alloc: Global,
    program: &Program,
    id: SubId,
    turns: u64,
    file: u32,
    inputs: &[InputLine],
) -> Result<RunResult, AllocError>
    requires visible { Visible program.now }
    requires obeys { Obeys program.now }
    requires id { id.0 < length program.now.subs }
    ensures { IfOk result (λ found. found ≡ spec.result_on program.now (slice_get program.now.subs id.0) turns file inputs.now) }
{
    names_are_scoped();
    let sub = &program.subs.as_slice()[id.0];
    let imports = VarSet::imports(alloc, sub)?;
    let entry = Entry {
        program,
        sub,
        imports: &imports,
    };
    run_entry(alloc, &entry, id, turns, file, inputs)
}

/// The finding on a name that no subprogram has.
fn no_subprogram(alloc: Global, name: &Text) -> Result<RunResult, AllocError>
    ensures { IfOk result (λ found. found ≡ Refused (NoSubprogram name.now ∷ [])) }
{
    let mut found = Items::new(alloc);
    found.push(InputFinding::NoSubprogram(name.copy(alloc)?))?;
    Ok(RunResult::Refused(found))
}

/// What a run of the subprogram of this name comes to, with inputs from the file of this number. Letter case does not count in names.
#[tactic(auto, unfolding(crate::specs::Results::result_of))]
pub fn run(
    alloc: Global,
    program: &Program,
    entry: &Text,
    turns: u64,
    file: u32,
    inputs: &[InputLine],
) -> Result<RunResult, AllocError>
    requires visible { Visible program.now }
    requires obeys { Obeys program.now }
    ensures { IfOk result (λ found. found ≡ result_of program.now entry.now turns file inputs.now) }
{
    match entry_named(program, entry) {
        Some(position) => run_sub(alloc, program, SubId(position), turns, file, inputs),
        None => no_subprogram(alloc, entry),
    }
}
