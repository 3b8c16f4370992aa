// The rules on annotations and statements (Ada 95 RM 5.2 to 5.7, 8.3).
ghost use Rattle.std.specs.Prelude.{◌≡◌};
ghost use Rattle.spx_core.specs.declared.statement.CoreArm.{out-CoreArm};
ghost use Rattle.spx_core.specs.Commands.{command, commands, loop_of};
ghost use Rattle.spx_core.specs.Judged.{each, if_there};
ghost use Rattle.spx_core.specs.Statements as rules;
ghost use Rattle.spx_typing.specs.Arms.{FoundInArms};
ghost use Rattle.spx_typing.specs.Choices.{alternatives_in, done_in};

use crate::choices::{judge_choices, judge_selector};
use spx_core::{
    Breach, CoreAlternative, CoreArm, CoreCount, CoreDerivesItem, CoreExpr, CorePredicate,
    CoreRange, CoreScheme, CoreStmt, ExprType, Reference, RuleName, Subtype, Target,
};
use spx_types::{
    condition, judge, keeps, operand_of, ordered_type, referred_object, referred_target,
};

fn judge_variable(reference: &Reference) -> Result<(), Breach>
    ensures { result ≡ rules.judged_variable reference.now }
{
    referred_object(reference)?;
    Ok(())
}

fn judge_variables(references: &[Reference]) -> Result<(), Breach>
    ensures { result ≡ each rules.judged_variable references.now }
{
    for reference in references {
        judge_variable(reference)?;
    }
    Ok(())
}

/// The first broken rule in an item of a relation: each name has to denote an object.
pub fn judge_item(item: &CoreDerivesItem) -> Result<(), Breach>
    ensures { result ≡ rules.judged_item item.now }
{
    judge_variables(item.exports.as_slice())?;
    judge_variables(item.imports.as_slice())
}

/// A truth value is needed.
fn test(expr: &CoreExpr) -> Result<(), Breach>
    ensures { result ≡ rules.test expr.now }
{
    condition(judge(expr)?)
}

/// The first broken rule in a precondition or a postcondition.
pub fn judge_predicate(predicate: &CorePredicate) -> Result<(), Breach>
    ensures { result ≡ rules.judged_predicate predicate.now }
{
    test(predicate.condition.get())
}

fn assignment(target: &Target, value: &CoreExpr) -> Result<(), Breach>
    ensures { result ≡ rules.assignment target.now value.now }
{
    let subtype = referred_target(target)?;
    operand_of(subtype, judge(value)?)
}

/// Values of the type are needed.
fn judge_range(subtype: Subtype, range: &CoreRange) -> Result<(), Breach>
    ensures { result ≡ rules.judged_bounds subtype range.now }
{
    operand_of(subtype, judge(range.low.get())?)?;
    operand_of(subtype, judge(range.high.get())?)
}

/// The first broken rule in the bounds of a loop over values of this type, if they are written.
fn judge_bounds(subtype: Subtype, bounds: &Option<CoreRange>) -> Result<(), Breach>
    ensures { result ≡ if_there (rules.judged_bounds subtype) bounds.now }
{
    match bounds {
        None => Ok(()),
        Some(range) => judge_range(subtype, range),
    }
}

/// The first broken rule in the head of a loop over a parameter.
fn judge_count(count: &CoreCount) -> Result<(), Breach>
    ensures { result ≡ rules.judged_count count.now }
{
    keeps(RuleName::N2, count.name.place, !count.again)?;
    let subtype = ordered_type(&count.type_name)?;
    judge_bounds(subtype, &count.bounds)
}

/// The first broken rule in statements.
#[cycle(judge_stmt)]
pub fn judge_stmts(stmts: &[CoreStmt]) -> Result<(), Breach>
    ensures { result ≡ rules.judged_command (commands stmts.now) }
{
    for stmt in stmts {
        judge_stmt(stmt)?;
    }
    Ok(())
}

/// The first broken rule in arms, whatever stands after them.
#[cycle(judge_stmt)]
fn judge_arms(arms: &[CoreArm]) -> Result<(), Breach>
    ensures { FoundInArms rules.judged_command arms.now result }
{
    for arm in arms {
        test(arm.condition.get())?;
        judge_body(arm)?;
    }
    Ok(())
}

#[cycle(judge_stmt)]
fn judge_body(arm: &CoreArm) -> Result<(), Breach>
    ensures { result ≡ rules.judged_command (commands (out-CoreArm arm.now).body) }
{
    judge_stmts(arm.body.as_slice())
}

/// The first broken rule in alternatives for values of this type.
#[cycle(judge_stmt)]
#[tactic(auto, using(crate::proofs::ChoiceSteps::alternatives_judged))]
fn judge_alternatives(of: ExprType, alternatives: &[CoreAlternative]) -> Result<(), Breach>
    ensures { result ≡ rules.judged_alternatives of (alternatives_in alternatives.now) }
{
    for alternative in alternatives {
        judge_choices(of, alternative)?;
        judge_chosen(alternative)?;
    }
    Ok(())
}

#[cycle(judge_stmt)]
fn judge_chosen(alternative: &CoreAlternative) -> Result<(), Breach>
    ensures { result ≡ rules.judged_command (done_in alternative.now) }
{
    judge_stmts(alternative.body.as_slice())
}

/// The first broken rule in the scheme of a loop, or else in its body.
#[cycle(judge_stmt)]
fn judge_loop(body: &[CoreStmt], scheme: &CoreScheme) -> Result<(), Breach>
    ensures { result ≡ rules.judged_command (loop_of scheme.now (commands body.now)) }
{
    match scheme {
        CoreScheme::While(_, condition) => {
            test(condition.get())?;
            judge_stmts(body)
        }
        CoreScheme::For(count) => {
            judge_count(count.get())?;
            judge_stmts(body)
        }
        CoreScheme::Endless => judge_stmts(body),
    }
}

#[cycle(judge_stmt)]
fn judge_stmt(stmt: &CoreStmt) -> Result<(), Breach>
    ensures { result ≡ rules.judged_command (command stmt.now) }
{
    match stmt {
        CoreStmt::Null(_) => Ok(()),
        CoreStmt::Assignment(target, value) => assignment(target.get(), value.get()),
        CoreStmt::If(arms, None, _) => judge_arms(arms.as_slice()),
        CoreStmt::If(arms, Some(stmts), _) => {
            judge_arms(arms.as_slice())?;
            judge_stmts(stmts.as_slice())
        }
        CoreStmt::Case(place, selector, alternatives, _) => {
            let alternatives = alternatives.as_slice();
            let of = judge_selector(*place, selector.get(), alternatives)?;
            judge_alternatives(of, alternatives)
        }
        CoreStmt::Loop(scheme, _, body, _) => judge_loop(body.as_slice(), scheme),
        CoreStmt::Assertion(_, _, condition) => test(condition.get()),
        CoreStmt::Exit(_, None) => Ok(()),
        CoreStmt::Exit(_, Some(condition)) => test(condition.get()),
    }
}
