// The lines of a report on flow.
ghost use Rattle.std.specs.Prelude.{◌≡◌, ◌↔◌, ◌<◌, ◌++◌, [], Some, false, length, map, slice_get, codes, IfErr, IfOk};
ghost use Rattle.spx_core.specs.declared.subprogram.Sub.{Sub};
ghost use Rattle.spx_core.specs.Erased.{Visible};
ghost use Rattle.spx_core.specs.FlowRules.{has_many_variables, is_wide, HasNoFlowFinding};
ghost use Rattle.spx_derives.specs.FlowFindings.{AreFindingsOf};
ghost use Rattle.spx_report.specs.FlowLines as spec;
ghost use Rattle.spx_report.specs.LineLists.{line_cmp, place_cmp, AreFindingsIn, AreInOrderOf};
ghost use Rattle.spx_report.specs.Limits.{IsFaultWhere};
ghost use Rattle.spx_report.specs.declared.limit.LimitName.TheVariants.{Variables};

use crate::limit::{FindFault, LimitName};
use crate::report::{Finding, Findings, code};
use spx_core::{Program, RuleName, SubId, VarId};
use spx_derives::{FlowFinding, compare_backward};
use spx_flow::{FlowFault, backward_flow_of};
use spx_text::{Place, Text};
use sqlite_items::Items;
use std::alloc::{AllocError, Global};
use std::cmp::Ordering;

/// The name of a variable, as it is declared.
fn var_name(program: &Program, var: VarId) -> &[u8]
    ensures { result.now ≡ spec.var_name program.now var }
{
    match program.vars.get(var.0) {
        Some(var) => var.name.as_bytes(),
        None => &[],
    }
}

/// `WHAT: Y from X`
fn pair_text(
    alloc: Global,
    program: &Program,
    what: &[u8],
    from: VarId,
    to: VarId,
) -> Result<Text, AllocError>
    ensures { IfOk result (λ text. text ≡ what.now ++ (spec.var_name program.now to ++ (codes " from " ++ spec.var_name program.now from))) }
{
    let mut text = Vec::from_slice(alloc, what)?;
    text.extend_from_slice(var_name(program, to))?;
    text.extend_from_slice(b" from ")?;
    text.extend_from_slice(var_name(program, from))?;
    Text::new(alloc, text.as_slice())
}

/// `unset: X`
fn unset_text(alloc: Global, program: &Program, var: VarId) -> Result<Text, AllocError>
    ensures { IfOk result (λ text. text ≡ codes "unset: " ++ spec.var_name program.now var) }
{
    let mut text = Vec::from_slice(alloc, b"unset: ")?;
    text.extend_from_slice(var_name(program, var))?;
    Text::new(alloc, text.as_slice())
}

/// The line on a flow finding.
#[tactic(auto, unfolding(crate::specs::FlowLines::flow_line))]
fn flow_line(alloc: Global, program: &Program, finding: FlowFinding) -> Result<Finding, AllocError>
    ensures { IfOk result (λ line. line ≡ spec.flow_line program.now finding) }
{
    match finding {
        FlowFinding::Missing(place, from, to) => Ok(Finding {
            place,
            rule: RuleName::F1,
            text: pair_text(alloc, program, b"missing: ", from, to)?,
        }),
        FlowFinding::Unused(place, from, to) => Ok(Finding {
            place,
            rule: RuleName::F2,
            text: pair_text(alloc, program, b"unused: ", from, to)?,
        }),
        FlowFinding::Ineffective(place) => Ok(Finding {
            place,
            rule: RuleName::F3,
            text: Text::new(alloc, b"ineffective")?,
        }),
        FlowFinding::UnsetRead(place, var) => Ok(Finding {
            place,
            rule: RuleName::F4,
            text: unset_text(alloc, program, var)?,
        }),
    }
}

/// Compares places by file, line, column.
fn compare_places(a: Place, b: Place) -> Ordering
    ensures { result ≡ place_cmp a b }
{
    (a.file, a.line, a.column).cmp(&(b.file, b.line, b.column))
}

/// Compares lines by place, rule, text.
fn compare_lines(a: &Finding, b: &Finding) -> Ordering
    ensures { result ≡ line_cmp a.now b.now }
{
    compare_places(a.place, b.place)
        .then_with(|| code(a.rule).cmp(code(b.rule)))
        .then_with(|| a.text.as_bytes().cmp(b.text.as_bytes()))
}

/// Puts lines in order, and keeps each once.
fn put_in_order(lines: &mut Vec<Finding>)
    ensures { AreInOrderOf lines.old.items lines.new.items }
{
    lines.sort_unstable_by(|a, b| compare_lines(a, b));
    lines.dedup_by(|a, b| compare_lines(a, b).is_eq());
}

/// A line for each finding.
fn lines_of(
    alloc: Global,
    program: &Program,
    found: &[FlowFinding],
) -> Result<Vec<Finding>, AllocError>
    ensures { IfOk result (λ lines. lines.items ≡ map (spec.flow_line program.now) found.now) }
{
    let mut lines = Vec::new(alloc);
    for finding in found {
        lines.push(flow_line(alloc, program, *finding)?)?;
    }
    Ok(lines)
}

/// The findings on the flow of a subprogram.
fn sub_findings(alloc: Global, program: &Program, id: SubId) -> Result<Vec<FlowFinding>, FindFault>
    requires visible { Visible program.now }
    requires id { id.0 < length program.now.subs }
    ensures exact { (sub : Sub) → slice_get program.now.subs id.0 ≡ Some sub → IfOk result (λ found. AreFindingsOf program.now sub found.items) }
    ensures narrow { (sub : Sub) → slice_get program.now.subs id.0 ≡ Some sub → IfOk result (λ _. is_wide sub ≡ false) }
    ensures refused { (sub : Sub) → slice_get program.now.subs id.0 ≡ Some sub → IfErr result (IsFaultWhere Variables (is_wide sub)) }
{
    match backward_flow_of(alloc, program, id) {
        Ok(body) => Ok(compare_backward(alloc, program, id, &body)?),
        Err(FlowFault::TooManyVariables(_)) => Err(FindFault::Limit(LimitName::Variables)),
        Err(FlowFault::Memory) => Err(FindFault::Memory),
    }
}

/// The findings on the flow of all subprograms.
fn all_findings(alloc: Global, program: &Program) -> Result<Vec<FlowFinding>, FindFault>
    requires { Visible program.now }
    ensures exact { IfOk result (λ found. AreFindingsIn program.now program.now.subs found.items) }
    ensures narrow { IfOk result (λ _. has_many_variables program.now ≡ false) }
    ensures refused { IfErr result (IsFaultWhere Variables (has_many_variables program.now)) }
{
    let mut all = Vec::new(alloc);
    for position in 0..program.subs.len() {
        let mut found = sub_findings(alloc, program, SubId(position))?;
        all.append(&mut found)?;
    }
    Ok(all)
}

/// The lines on the flow of a program, each once, in order, where no subprogram has too many variables.
pub fn flow_findings(alloc: Global, program: &Program) -> Result<Findings, FindFault>
    requires { Visible program.now }
    ensures exact { IfOk result (λ found. spec.AreFlowLines program.now found.lines) }
    ensures rows { IfOk result (λ found. found.subs ≡ []) }
    ensures none { IfOk result (λ found. (found.lines ≡ []) ↔ HasNoFlowFinding program.now) }
    ensures narrow { IfOk result (λ _. has_many_variables program.now ≡ false) }
    ensures refused { IfErr result (IsFaultWhere Variables (has_many_variables program.now)) }
{
    let found = all_findings(alloc, program)?;
    let mut lines = lines_of(alloc, program, found.as_slice())?;
    put_in_order(&mut lines);
    Ok(Findings {
        lines: Items::from_vec(lines),
        subs: Items::new(alloc),
    })
}
