// From units to what there is to report, phase by phase.
ghost use Rattle.std.specs.Prelude.{◌≡◌, ◌≢◌, ◌≤◌, ℕ, false, List, [], ◌∷◌, length, Ok, Err, IfOk, IfSome, IsErrOf, IsNone};
ghost use Rattle.spx_text.specs.Limits.{most_bytes};
ghost use Rattle.spx_text.specs.declared.place.Place.{Place};
ghost use Rattle.spx_core.specs.Contents.{IsMadeFrom};
ghost use Rattle.spx_core.specs.Erased.{Visible};
ghost use Rattle.spx_core.specs.FlowRules.{has_many_variables};
ghost use Rattle.spx_core.specs.Obeyed.{Obeys};
ghost use Rattle.spx_core.specs.declared.rule.Breach.{Breach};
ghost use Rattle.spx_findings.specs.Findings.{findings_of, first_limit};
ghost use Rattle.spx_report.specs.FlowLines.{AreFlowLines};
ghost use Rattle.spx_findings.specs.Listing as listing;
ghost use Rattle.spx_report.specs.RuleTexts.{breach_finding};
ghost use Rattle.spx_run.specs.Results.{result_of};
ghost use Rattle.spx_words.specs.Words.{request_of};
ghost use Rattle.spx_examiner.specs.declared.judgement.Judgement.{Judgement};
ghost use Rattle.spx_examiner.specs.declared.judgement.Judgement.TheVariants.{Examined, Listed, Ran, Refused};
ghost use Rattle.spx_examiner.specs.Causes.{any_too_long, contents_of};
ghost use Rattle.spx_examiner.specs.Judgement.{status_of};
ghost use Rattle.spx_examiner.specs.Outcome.{AreInputsIn, IsExamined, IsFirstBreach, IsReportOn, IsReportOnProgram, IsReportOnUnits};

use crate::judgement::Judgement;
use crate::reading::{Reading, read};
use crate::words::one_name;
use spx_core::{Breach, Program};
use spx_findings::{conditions_text, findings};
use spx_report::{FindFault, Finding, LimitName, breach_finding, flow_findings};
use spx_resolve::{ResolveFault, resolve};
use spx_rules::obey;
use spx_run::{InputFault, InputFinding, InputLine, Inputs, RunResult, read_inputs, run};
use spx_text::{Place, Text};
use spx_tree::Unit;
use spx_words::CommandWords;
use sqlite_items::Items;
use std::alloc::{AllocError, Global};

/// One finding alone.
fn refused(alloc: Global, finding: Finding) -> Result<Judgement, AllocError>
    ensures { IfOk result (λ judgement. judgement ≡ Refused (finding ∷ [])) }
{
    let mut lines = Items::new(alloc);
    lines.push(finding)?;
    Ok(Judgement::Refused(lines))
}

/// The finding on a breach alone.
fn refused_by(alloc: Global, breach: Breach) -> Result<Judgement, AllocError>
    ensures { IfOk result (λ judgement. judgement ≡ Refused (breach_finding breach ∷ [])) }
{
    refused(alloc, breach_finding(alloc, breach)?)
}

/// The program that units are, where they break no rule.
fn obeyed(alloc: Global, units: &[Unit]) -> Result<Program, ResolveFault>
    ensures made { IfOk result (IsMadeFrom units.now) }
    ensures obeys { IfOk result Obeys }
    ensures broken { (breach : Breach) → IsErrOf result (ResolveFault.Breach breach) → IsFirstBreach units.now breach }
{
    let program = match resolve(alloc, units) {
        Ok(program) => program,
        Err(ResolveFault::Breach(breach)) => return Err(ResolveFault::Breach(breach)),
        Err(ResolveFault::Memory) => return Err(ResolveFault::Memory),
    };
    match obey(alloc, &program)? {
        Some(breach) => Err(ResolveFault::Breach(breach)),
        None => Ok(program),
    }
}

/// The program that units are, where they break no rule. The units are given up.
fn made_of(alloc: Global, units: Items<Unit>) -> Result<Program, ResolveFault>
    ensures made { IfOk result (IsMadeFrom units) }
    ensures obeys { IfOk result Obeys }
    ensures broken { (breach : Breach) → IsErrOf result (ResolveFault.Breach breach) → IsFirstBreach units breach }
{
    obeyed(alloc, units.as_slice())
}

/// What there is to report before the conditions of a program: that a subprogram has too many variables, or else all flow findings.
fn before_conditions(alloc: Global, program: &Program) -> Result<Option<Judgement>, AllocError>
    requires { Visible program.now }
    ensures report { IfOk result (λ found. IfSome found (λ judgement. (conditions : Judgement) → IsExamined program.now conditions judgement)) }
    ensures narrow { IfOk result (λ found. IsNone found → has_many_variables program.now ≡ false) }
    ensures flows { IfOk result (λ found. IsNone found → AreFlowLines program.now []) }
{
    match flow_findings(alloc, program) {
        Ok(found) if found.lines.is_empty() => Ok(None),
        Ok(found) => Ok(Some(Judgement::Refused(found.lines))),
        Err(FindFault::Limit(limit)) => Ok(Some(Judgement::Limit(limit))),
        Err(FindFault::Memory) => Err(AllocError),
    }
}

/// What a check comes to.
fn checked(alloc: Global, program: Program) -> Result<Judgement, AllocError>
    requires { Visible program }
    ensures { IfOk result (IsExamined program (Examined program (findings_of program))) }
{
    if let Some(judgement) = before_conditions(alloc, &program)? {
        return Ok(judgement);
    }
    match findings(alloc, &program) {
        Ok(found) => Ok(Judgement::Examined(program, found)),
        Err(FindFault::Limit(name)) => Ok(Judgement::Limit(name)),
        Err(FindFault::Memory) => Err(AllocError),
    }
}

/// The text of the conditions of a program from the file of this name.
fn listed(alloc: Global, file: &str, program: &Program) -> Result<Judgement, AllocError>
    requires { Visible program.now }
    ensures { IfOk result (IsExamined program.now (Listed (listing.conditions_text program.now (file.now ∷ [])))) }
{
    if let Some(judgement) = before_conditions(alloc, program)? {
        return Ok(judgement);
    }
    let files = one_name(alloc, file)?;
    match conditions_text(alloc, program, files.as_slice()) {
        Ok(text) => Ok(Judgement::Listed(Text::new(alloc, text.as_slice())?)),
        Err(FindFault::Limit(passed)) => Ok(Judgement::Limit(passed)),
        Err(FindFault::Memory) => Err(AllocError),
    }
}

/// What the run of an entry comes to.
fn ran(
    alloc: Global,
    program: &Program,
    entry: &str,
    turns: u64,
    inputs: &[InputLine],
) -> Result<Judgement, AllocError>
    requires visible { Visible program.now }
    requires obeys { Obeys program.now }
    ensures { IfOk result (λ judgement. judgement ≡ Ran (result_of program.now entry.now turns 1 inputs.now)) }
{
    let entry = Text::new(alloc, entry.as_bytes())?;
    Ok(Judgement::Ran(run(alloc, program, &entry, turns, 1, inputs)?))
}

/// What is asked for of a program that obeys the rules, and of inputs.
fn on_program(
    alloc: Global,
    command: &CommandWords<'_>,
    inputs: &[InputLine],
    program: Program,
) -> Result<Judgement, AllocError>
    requires visible { Visible program }
    requires obeys { Obeys program }
    ensures { IfOk result (IsReportOnProgram (request_of command.now) inputs.now program) }
{
    match command {
        CommandWords::Check { .. } => checked(alloc, program),
        CommandWords::Conditions { file } => listed(alloc, file, &program),
        CommandWords::Run { entry, turns, .. } => ran(alloc, &program, entry, *turns, inputs),
    }
}

/// What there is to report on units and inputs: the first broken rule, or else what is asked for.
fn on_units(
    alloc: Global,
    command: &CommandWords<'_>,
    inputs: &[InputLine],
    units: Items<Unit>,
) -> Result<Judgement, AllocError>
    ensures { (given : List (List ℕ)) → AreInputsIn given (Ok inputs.now) → IfOk result (IsReportOnUnits (request_of command.now) given units) }
{
    match made_of(alloc, units) {
        Ok(program) => on_program(alloc, command, inputs, program),
        Err(ResolveFault::Breach(breach)) => refused_by(alloc, breach),
        Err(ResolveFault::Memory) => Err(AllocError),
    }
}

/// What the files after the program say: nothing, or the inputs of a run.
fn inputs_in(alloc: Global, given: &[Vec<u8>]) -> Result<Inputs, InputFault>
    requires { any_too_long (contents_of given.now) ≡ false }
    ensures lines { IfOk result (λ inputs. AreInputsIn (contents_of given.now) (Ok inputs.lines)) }
    ensures bad { (place : Place) → IsErrOf result (InputFault.BadLine place) → AreInputsIn (contents_of given.now) (Err place.line) × (place ≡ record { file = 1; line = place.line; column = 1 }) }
{
    match given {
        [] => Ok(Inputs {
            lines: Items::new(alloc),
        }),
        [bytes, ..] => read_inputs(alloc, 1, bytes.as_slice()),
    }
}

/// A run is refused for a bad line of its inputs.
fn refused_at(alloc: Global, place: Place) -> Result<Judgement, AllocError>
    ensures { IfOk result (λ judgement. judgement ≡ Ran (RunResult.Refused (InputFinding.BadLine place ∷ []))) }
{
    let mut found = Items::new(alloc);
    found.push(InputFinding::BadLine(place))?;
    Ok(Judgement::Ran(RunResult::Refused(found)))
}

/// What there is to report on units and the files after the program: the first bad line of the inputs comes first.
fn examined(
    alloc: Global,
    command: &CommandWords<'_>,
    given: &[Vec<u8>],
    units: Items<Unit>,
) -> Result<Judgement, AllocError>
    requires { any_too_long (contents_of given.now) ≡ false }
    ensures { IfOk result (IsReportOnUnits (request_of command.now) (contents_of given.now) units) }
{
    match inputs_in(alloc, given) {
        Ok(inputs) => on_units(alloc, command, inputs.lines.as_slice(), units),
        Err(InputFault::BadLine(place)) => refused_at(alloc, place),
        Err(InputFault::Memory) => Err(AllocError),
    }
}

/// What there is to report on the text of a program and the files after it.
pub fn judge(
    alloc: Global,
    command: &CommandWords<'_>,
    source: &[u8],
    given: &[Vec<u8>],
) -> Result<Judgement, AllocError>
    requires source { length source.now ≤ most_bytes }
    requires given { any_too_long (contents_of given.now) ≡ false }
    ensures { IfOk result (IsReportOn (request_of command.now) (source.now ∷ contents_of given.now)) }
{
    match read(alloc, source)? {
        Reading::Units(units) => examined(alloc, command, given, units),
        Reading::Broken(finding) => refused(alloc, finding),
        Reading::TooManyTokens => Ok(Judgement::Limit(LimitName::Tokens)),
        Reading::TooNested => Ok(Judgement::Limit(LimitName::Nesting)),
    }
}
