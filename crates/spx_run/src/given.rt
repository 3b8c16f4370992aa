// What inputs give to the imports of a subprogram.
ghost use Rattle.std.specs.Prelude.{◌≡◌, ◌<◌, ◌++◌, [], map, filter, length, IfOk, IfSome, OnOk};
ghost use Rattle.std.specs.List.{cons_option, list_any};
ghost use Rattle.spx_core.specs.declared.entity.VarId.{VarId};
ghost use Rattle.spx_core.specs.Formals.{formals};
ghost use Rattle.spx_run.specs.declared.result.InputFinding.TheVariants.{NoValue};
ghost use Rattle.spx_run.specs.Given as spec;
ghost use Rattle.spx_run.specs.Mirror.{AreImports, ImportsAreDeclared, truth_written};

use crate::inputs::{InputLine, InputValue};
use crate::result::InputFinding;
use spx_core::{Class, Program, Sub, Subtype, VarId, VarSet};
use spx_meaning::{Store, Value, lies_in, type_of};
use spx_text::{Place, Text};
use sqlite_items::Items;
use std::alloc::{AllocError, Global};

/// A subprogram of a program, and its imports.
#[derive(Clone, Copy)]
pub(crate) struct Entry<'a> {
    pub program: &'a Program,
    pub sub: &'a Sub,
    pub imports: &'a VarSet,
}

// ---- names

/// The name of a variable as it is declared.
pub(crate) fn var_name(program: &Program, var: VarId) -> &[u8]
    ensures { result.now ≡ spec.var_name program.now var }
{
    match program.vars.get(var.0) {
        Some(var) => var.name.as_bytes(),
        None => &[],
    }
}

/// Whether the import has this name.
fn is_named(entry: &Entry, var: VarId, name: &Text) -> bool
    ensures { result ≡ spec.is_word (spec.var_name entry.now.program.now var) name.now }
{
    var_name(entry.program, var).eq_ignore_ascii_case(name.as_bytes())
}

/// The import of this name among the formals.
fn import_named(entry: &Entry, name: &Text) -> Option<VarId>
    requires { AreImports entry.now.sub.now entry.now.imports.now }
    ensures { result ≡ spec.import_named entry.now.program.now entry.now.sub.now name.now }
{
    for var in entry.sub.formals() {
        if entry.imports.contains(*var) && is_named(entry, *var, name) {
            return Some(*var);
        }
    }
    None
}

/// Whether the variable is one of these.
fn is_among(vars: &[VarId], var: VarId) -> bool
    ensures { result ≡ list_any (spec.same_var var) vars.now }
{
    vars.iter().any(|other| var.0 == other.0)
}

// ---- values

/// The truth value that a word is.
fn truth_written(word: &[u8]) -> Option<Value>
    ensures { result ≡ truth_written word.now }
{
    if word.eq_ignore_ascii_case(b"true") {
        Some(Value::Truth(true))
    } else if word.eq_ignore_ascii_case(b"false") {
        Some(Value::Truth(false))
    } else {
        None
    }
}

/// The value of a class that is written.
fn written(class: Class, value: &InputValue) -> Option<Value>
    ensures { result ≡ spec.written class value.now }
{
    match class {
        Class::Integer => match value {
            InputValue::Number(number) => Some(Value::Number(*number)),
            InputValue::Word(_) => None,
            InputValue::Parts(_) => None,
        },
        Class::Boolean => match value {
            InputValue::Number(_) => None,
            InputValue::Word(word) => truth_written(word.as_bytes()),
            InputValue::Parts(_) => None,
        },
        Class::Enumeration | Class::Composite => None,
    }
}

/// The value that is written, if it is one of the type.
fn typed(subtype: Subtype, value: &InputValue) -> Option<Value>
    ensures { result ≡ spec.typed subtype value.now }
{
    let value = written(subtype.base.class, value)?;
    if lies_in(subtype, &value) {
        Some(value)
    } else {
        None
    }
}

// ---- findings

/// What is wrong with a line whose name is that of this import, after lines for those imports.
fn finding_for(
    program: &Program,
    file: u32,
    earlier: &[VarId],
    line: &InputLine,
    import: Option<VarId>,
) -> Option<InputFinding>
    ensures { result ≡ spec.finding_for program.now file earlier.now line.now import }
{
    let place = Place {
        file,
        line: line.line,
        column: 1,
    };
    let Some(var) = import else {
        return Some(InputFinding::NoImport(place));
    };
    if is_among(earlier, var) {
        return Some(InputFinding::NoImport(place));
    }
    if typed(type_of(program, var), &line.value).is_none() {
        return Some(InputFinding::NotOfType(place));
    }
    None
}

/// Adds a finding, if there is one.
fn add_finding(
    found: &mut Items<InputFinding>,
    finding: Option<InputFinding>,
) -> Result<(), AllocError>
    ensures { OnOk result (found.new ≡ found.old ++ cons_option finding []) }
{
    match finding {
        Some(finding) => found.push(finding),
        None => Ok(()),
    }
}

/// Adds a variable, if there is one.
fn add_var(vars: &mut Items<VarId>, var: Option<VarId>) -> Result<(), AllocError>
    ensures { OnOk result (vars.new ≡ vars.old ++ cons_option var []) }
{
    match var {
        Some(var) => vars.push(var),
        None => Ok(()),
    }
}

/// The findings on lines, in their order.
fn findings_on(
    alloc: Global,
    entry: &Entry,
    file: u32,
    lines: &[InputLine],
) -> Result<Items<InputFinding>, AllocError>
    requires { AreImports entry.now.sub.now entry.now.imports.now }
    ensures { IfOk result (λ found. found ≡ spec.findings_on entry.now.program.now entry.now.sub.now file [] lines.now) }
{
    let mut earlier = Items::new(alloc);
    let mut found = Items::new(alloc);
    for line in lines {
        let import = import_named(entry, &line.name);
        let finding = finding_for(entry.program, file, earlier.as_slice(), line, import);
        add_finding(&mut found, finding)?;
        add_var(&mut earlier, import)?;
    }
    Ok(found)
}

/// The imports that lines name.
fn named_by(alloc: Global, entry: &Entry, lines: &[InputLine]) -> Result<Items<VarId>, AllocError>
    requires { AreImports entry.now.sub.now entry.now.imports.now }
    ensures { IfOk result (λ named. named ≡ spec.named_by entry.now.program.now entry.now.sub.now lines.now) }
{
    let mut named = Items::new(alloc);
    for line in lines {
        add_var(&mut named, import_named(entry, &line.name))?;
    }
    Ok(named)
}

/// Whether the variable is an import without a value, where lines name these imports.
fn is_missing(entry: &Entry, store: &Store, named: &[VarId], var: VarId) -> bool
    requires { AreImports entry.now.sub.now entry.now.imports.now }
    ensures { result ≡ spec.is_missing entry.now.sub.now store.now named.now var }
{
    entry.imports.contains(var) && !is_among(named, var) && store.get(var).is_none()
}

/// Adds a finding for each import that has no value, where lines name these imports.
fn add_missing(
    alloc: Global,
    entry: &Entry,
    store: &Store,
    named: &[VarId],
    found: &mut Items<InputFinding>,
) -> Result<(), AllocError>
    requires { AreImports entry.now.sub.now entry.now.imports.now }
    ensures { OnOk result (found.new ≡ found.old ++ map (λ v. NoValue (spec.var_name entry.now.program.now v)) (filter (spec.is_missing entry.now.sub.now store.now named.now) (formals entry.now.sub.now))) }
{
    for var in entry.sub.formals() {
        if is_missing(entry, store, named, *var) {
            let name = Text::new(alloc, var_name(entry.program, *var))?;
            found.push(InputFinding::NoValue(name))?;
        }
    }
    Ok(())
}

/// All findings on inputs, over the store with which the program begins.
pub(crate) fn findings_of(
    alloc: Global,
    entry: &Entry,
    store: &Store,
    file: u32,
    lines: &[InputLine],
) -> Result<Items<InputFinding>, AllocError>
    requires { AreImports entry.now.sub.now entry.now.imports.now }
    ensures { IfOk result (λ found. found ≡ spec.findings_of entry.now.program.now entry.now.sub.now store.now file lines.now) }
{
    let mut found = findings_on(alloc, entry, file, lines)?;
    let named = named_by(alloc, entry, lines)?;
    add_missing(alloc, entry, store, named.as_slice(), &mut found)?;
    Ok(found)
}

// ---- the store

/// Gives the import the value, where both are there.
fn give(program: &Program, store: &mut Store, import: Option<VarId>, value: &InputValue)
    requires { IfSome import (λ (v : VarId). v.0 < length store.old) }
    ensures given { store.new ≡ spec.given_to program.now import value.now store.old }
    ensures room { length store.new ≡ length store.old }
{
    let Some(var) = import else {
        return;
    };
    let Some(value) = typed(type_of(program, var), value) else {
        return;
    };
    store.set(var, value);
}

/// Gives the imports the values of the lines.
pub(crate) fn give_all(entry: &Entry, store: &mut Store, lines: &[InputLine])
    requires imports { AreImports entry.now.sub.now entry.now.imports.now }
    requires declared { ImportsAreDeclared entry.now.program.now entry.now.sub.now }
    requires room { length store.old ≡ length entry.now.program.now.vars }
    ensures given { store.new ≡ spec.store_with entry.now.program.now entry.now.sub.now lines.now store.old }
    ensures room { length store.new ≡ length store.old }
{
    for line in lines {
        let import = import_named(entry, &line.name);
        give(entry.program, store, import, &line.value);
    }
}
