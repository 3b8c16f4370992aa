// U8, U2, U4: the mode of a formal agrees with the relation, no formal of mode `in` and no constant is assigned, and exits have
// the forms that a loop may be left by.
ghost use Rattle.std.specs.Prelude.{◌≡◌, map};
ghost use Rattle.spx_core.specs.declared.statement.Around.TheVariants.{Other};
ghost use Rattle.spx_core.specs.Commands.{arm_before, arms_before, command, commands};
ghost use Rattle.spx_core.specs.Exits as exits;
ghost use Rattle.spx_core.specs.Formals.{mode_in};
ghost use Rattle.spx_core.specs.Judged.{each};
ghost use Rattle.spx_core.specs.Obeyed as rules;
ghost use Rattle.spx_rules.specs.Arms.{FoundInArms};
ghost use Rattle.spx_typing.specs.Choices.{alternatives_in, done_in};

use crate::tables::Tables;
use spx_core::{
    Around, Breach, CoreAlternative, CoreArm, CoreDerivesItem, CoreName, CoreStmt, Entity, Mode,
    Reference, RuleName, VarKind, variable_of,
};
use spx_types::keeps;

fn mode_in(kind: VarKind) -> Option<Mode>
    ensures { result ≡ mode_in kind }
{
    match kind {
        VarKind::Formal(mode) => Some(mode),
        VarKind::Local | VarKind::Initialized(_) | VarKind::LoopParameter => None,
    }
}

/// The mode of the formal that a name denotes.
fn mode_named(name: &CoreName) -> Option<Mode>
    ensures { result ≡ rules.mode_named name.now }
{
    match name.entity {
        Some(Entity::Variable(_, object)) => mode_in(object.kind),
        _ => None,
    }
}

/// Whether the variable that a name denotes is imported.
fn is_imported(tables: &Tables, name: &CoreName) -> bool
    ensures { result ≡ rules.is_imported tables.now name.now }
{
    match variable_of(name.entity) {
        Some(var) => tables.imports(var),
        None => false,
    }
}

fn is_exported(tables: &Tables, name: &CoreName) -> bool
    ensures { result ≡ rules.is_exported tables.now name.now }
{
    match variable_of(name.entity) {
        Some(var) => tables.exports(var),
        None => false,
    }
}

/// Whether a formal of this mode may be such an export. `starred` says that `*` imports it.
fn export_agrees(mode: Option<Mode>, starred: bool, imported: bool) -> bool
    ensures { result ≡ rules.export_agrees mode starred imported }
{
    match mode {
        Some(Mode::In) => false,
        Some(Mode::Out) => !starred,
        Some(Mode::InOut) => imported,
        None => true,
    }
}

/// Whether a formal of this mode may be such an import.
fn import_agrees(mode: Option<Mode>, exported: bool) -> bool
    ensures { result ≡ rules.import_agrees mode exported }
{
    match mode {
        Some(Mode::In) => true,
        Some(Mode::Out) => false,
        Some(Mode::InOut) => exported,
        None => true,
    }
}

fn obey_export(tables: &Tables, starred: bool, name: &Reference) -> Result<(), Breach>
    ensures { result ≡ rules.obeyed_export tables.now starred name.now }
{
    let place = name.root.name.place;
    let mode = mode_named(&name.root);
    let imported = is_imported(tables, &name.root);
    keeps(RuleName::U8, place, export_agrees(mode, starred, imported))
}

fn obey_exports(tables: &Tables, starred: bool, names: &[Reference]) -> Result<(), Breach>
    ensures { result ≡ each (rules.obeyed_export tables.now starred) names.now }
{
    for name in names {
        obey_export(tables, starred, name)?;
    }
    Ok(())
}

fn obey_import(tables: &Tables, name: &Reference) -> Result<(), Breach>
    ensures { result ≡ rules.obeyed_import tables.now name.now }
{
    let place = name.root.name.place;
    let mode = mode_named(&name.root);
    let exported = is_exported(tables, &name.root);
    keeps(RuleName::U8, place, import_agrees(mode, exported))
}

fn obey_imports(tables: &Tables, names: &[Reference]) -> Result<(), Breach>
    ensures { result ≡ each (rules.obeyed_import tables.now) names.now }
{
    for name in names {
        obey_import(tables, name)?;
    }
    Ok(())
}

/// The first name of the item whose mode does not agree with the relation.
pub fn obey_item(tables: &Tables, item: &CoreDerivesItem) -> Result<(), Breach>
    ensures { result ≡ rules.obeyed_item tables.now item.now }
{
    obey_exports(tables, item.itself.is_some(), item.exports.as_slice())?;
    obey_imports(tables, item.imports.as_slice())
}

fn may_be_assigned(mode: Option<Mode>) -> bool
    ensures { result ≡ rules.may_be_assigned mode }
{
    !matches!(mode, Some(Mode::In))
}

fn is_loop_parameter(kind: VarKind) -> bool
    ensures { result ≡ rules.is_loop_parameter_kind kind }
{
    matches!(kind, VarKind::LoopParameter)
}

/// Whether a name that denotes this may not be assigned: a constant, a named number, or the parameter of a loop.
fn is_constant(entity: Option<Entity>) -> bool
    ensures { result ≡ rules.is_constant entity }
{
    match entity {
        Some(Entity::Variable(_, object)) => is_loop_parameter(object.kind),
        Some(Entity::Constant(_, _)) => true,
        Some(Entity::NamedNumber(_)) => true,
        _ => false,
    }
}

/// Whether an exit with a condition may stand here.
fn is_loop(around: Around) -> bool
    ensures { result ≡ exits.is_loop around }
{
    matches!(around, Around::Loop)
}

/// Whether an exit without a condition may stand here.
fn is_end_of_arm(around: Around) -> bool
    ensures { result ≡ exits.is_end_of_arm around }
{
    matches!(around, Around::Arm)
}

/// What a statement stands in that others follow.
fn followed(around: Around) -> Around
    ensures { result ≡ exits.followed around }
{
    match around {
        Around::Loop => Around::Loop,
        Around::Arm | Around::Other => Around::Other,
    }
}

/// What a statement stands in, before these others.
fn first_in(around: Around, others: &[CoreStmt]) -> Around
    ensures { result ≡ exits.first_in around (commands others.now) }
{
    if others.is_empty() {
        around
    } else {
        followed(around)
    }
}

/// What an arm of an `if` stands in, before these arms and the statements after `else`.
fn arm_in(around: Around, arms: &[CoreArm], otherwise: &[CoreStmt]) -> Around
    ensures { result ≡ exits.arm_in around (arms_before (commands otherwise.now) (map arm_before arms.now)) }
{
    if is_loop(around) && arms.is_empty() && otherwise.is_empty() {
        Around::Arm
    } else {
        Around::Other
    }
}

/// The first assignment to a formal of mode `in`, or to a constant, among statements, or the first exit in another form than
/// those that a loop may be left by.
#[cycle(obey_stmt)]
pub fn obey_stmts(around: Around, stmts: &[CoreStmt]) -> Result<(), Breach>
    ensures { result ≡ rules.obeyed_command around (commands stmts.now) }
{
    for (at, stmt) in stmts.iter().enumerate() {
        obey_stmt(first_in(around, &stmts[at + 1..]), stmt)?;
    }
    Ok(())
}

/// The first such breach in the arms of an `if`, or else what the statements after `else` stand in: without arms they are the
/// whole `if`.
#[cycle(obey_stmt)]
fn obey_arms(around: Around, arms: &[CoreArm], otherwise: &[CoreStmt]) -> Result<Around, Breach>
    ensures { FoundInArms around arms.now (commands otherwise.now) result }
{
    let mut here = around;
    for (at, arm) in arms.iter().enumerate() {
        let inside = arm_in(here, &arms[at + 1..], otherwise);
        obey_stmts(inside, arm.body.as_slice())?;
        here = Around::Other;
    }
    Ok(here)
}

/// The first such breach in alternatives.
#[cycle(obey_stmt)]
fn obey_alternatives(alternatives: &[CoreAlternative]) -> Result<(), Breach>
    ensures { result ≡ rules.obeyed_alternatives (alternatives_in alternatives.now) }
{
    for alternative in alternatives {
        obey_chosen(alternative)?;
    }
    Ok(())
}

#[cycle(obey_stmt)]
fn obey_chosen(alternative: &CoreAlternative) -> Result<(), Breach>
    ensures { result ≡ rules.obeyed_command Other (done_in alternative.now) }
{
    obey_stmts(Around::Other, alternative.body.as_slice())
}

#[cycle(obey_stmt)]
fn obey_stmt(around: Around, stmt: &CoreStmt) -> Result<(), Breach>
    ensures { result ≡ rules.obeyed_command around (command stmt.now) }
{
    match stmt {
        CoreStmt::Null(_) => Ok(()),
        CoreStmt::Assignment(target, _) => {
            let name = &target.get().root;
            let kept = may_be_assigned(mode_named(name)) && !is_constant(name.entity);
            keeps(RuleName::U2, name.name.place, kept)
        }
        CoreStmt::If(arms, None, _) => {
            obey_arms(around, arms.as_slice(), &[])?;
            Ok(())
        }
        CoreStmt::If(arms, Some(stmts), _) => {
            let stmts = stmts.as_slice();
            let after = obey_arms(around, arms.as_slice(), stmts)?;
            obey_stmts(after, stmts)
        }
        CoreStmt::Case(_, _, alternatives, _) => obey_alternatives(alternatives.as_slice()),
        CoreStmt::Loop(_, _, body, _) => obey_stmts(Around::Loop, body.as_slice()),
        CoreStmt::Assertion(_, _, _) => Ok(()),
        CoreStmt::Exit(place, None) => keeps(RuleName::U4, *place, is_end_of_arm(around)),
        CoreStmt::Exit(place, Some(_)) => keeps(RuleName::U4, *place, is_loop(around)),
    }
}
