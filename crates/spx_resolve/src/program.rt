// The rules on subprograms and programs (Ada 95 RM 6.3, 10.1).
ghost use Rattle.std.specs.Prelude.{◌≡◌};
ghost use Rattle.spx_core.specs.Judged.{each, if_there};
ghost use Rattle.spx_core.specs.Resolved.{params_of};
ghost use Rattle.spx_core.specs.Statements as rules;

use spx_core::{
    Breach, CoreDecl, CoreDerivesItem, CoreFormalPart, CoreParam, CorePredicate, Defining, Program,
    RuleName, Sub,
};
use spx_tree::Identifier;
use spx_types::keeps;
use spx_typing::{
    declared_once, judge_decl, judge_item, judge_param, judge_predicate, judge_stmts,
};

fn judge_params(params: &[CoreParam]) -> Result<(), Breach>
    ensures { result ≡ each rules.judged_param params.now }
{
    for param in params {
        judge_param(param)?;
    }
    Ok(())
}

fn judge_formals(formal_part: &Option<CoreFormalPart>) -> Result<(), Breach>
    ensures { result ≡ each rules.judged_param (params_of formal_part.now) }
{
    match formal_part {
        None => Ok(()),
        Some(formal_part) => judge_params(formal_part.params.as_slice()),
    }
}

fn judge_relation(items: &[CoreDerivesItem]) -> Result<(), Breach>
    ensures { result ≡ each rules.judged_item items.now }
{
    for item in items {
        judge_item(item)?;
    }
    Ok(())
}

fn judge_annotation(predicate: &Option<CorePredicate>) -> Result<(), Breach>
    ensures { result ≡ if_there rules.judged_predicate predicate.now }
{
    match predicate {
        None => Ok(()),
        Some(predicate) => judge_predicate(predicate),
    }
}

fn judge_decls(decls: &[CoreDecl]) -> Result<(), Breach>
    ensures { result ≡ each rules.judged_decl decls.now }
{
    for decl in decls {
        judge_decl(decl)?;
    }
    Ok(())
}

/// The name after `end` has to be that of the subprogram.
fn judge_end(name: &Defining, end_name: &Option<Identifier>) -> Result<(), Breach>
    ensures { result ≡ if_there (rules.judged_end name.now) end_name.now }
{
    match end_name {
        None => Ok(()),
        Some(end_name) => {
            let kept = name.name.text.is_same_word(&end_name.text);
            keeps(RuleName::N5, end_name.place, kept)
        }
    }
}

fn judge_sub(sub: &Sub) -> Result<(), Breach>
    ensures { result ≡ rules.judged_sub sub.now }
{
    judge_formals(&sub.formal_part)?;
    judge_relation(sub.relation())?;
    judge_annotation(&sub.pre)?;
    judge_annotation(&sub.post)?;
    judge_decls(sub.declarations.as_slice())?;
    judge_stmts(sub.statements.as_slice())?;
    judge_end(&sub.name, &sub.end_name)
}

fn judge_names(subs: &[Sub]) -> Result<(), Breach>
    ensures { result ≡ each rules.judged_name subs.now }
{
    for sub in subs {
        declared_once(&sub.name)?;
    }
    Ok(())
}

fn judge_subs(subs: &[Sub]) -> Result<(), Breach>
    ensures { result ≡ each rules.judged_sub subs.now }
{
    for sub in subs {
        judge_sub(sub)?;
    }
    Ok(())
}

/// The first rule on names or types that the program breaks, if it breaks one: the names of all units come first, then
/// each unit.
pub fn judge_program(program: &Program) -> Result<(), Breach>
    ensures { result ≡ rules.judged_program program.now }
{
    let subs = program.subs.as_slice();
    judge_names(subs)?;
    judge_subs(subs)
}
