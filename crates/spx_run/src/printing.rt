// The text of what a run comes to.
ghost use Rattle.std.specs.Prelude.{◌≡◌, ◌++◌, OnOk, flat_map, map};
ghost use Rattle.spx_text.specs.Loads.{names};
ghost use Rattle.spx_report.specs.Report.{counted};
ghost use Rattle.spx_run.specs.Mirror.{name_line, place_line};
ghost use Rattle.spx_run.specs.Results as spec;

use crate::result::{InputFinding, Output};
use spx_meaning::{Bad, BadKind, Value};
use spx_num::decimal;
use spx_report::{place_text, spot_text};
use spx_text::{Place, Text};
use std::alloc::{AllocError, Global};

/// A value in the form of an input.
#[cycle(put_value)]
fn put_value(alloc: Global, out: &mut Vec<u8>, value: &Value) -> Result<(), AllocError>
    ensures { OnOk result (out.new.items ≡ out.old.items ++ spec.value_text value.now) }
{
    match value {
        Value::Number(number) => out.extend_from_slice(decimal(alloc, *number)?.as_slice()),
        Value::Truth(true) => out.extend_from_slice(b"True"),
        Value::Truth(false) => out.extend_from_slice(b"False"),
        Value::Elements(_, elements) => put_values(alloc, out, elements.as_slice()),
        Value::Fields(fields) => put_values(alloc, out, fields.as_slice()),
    }
}

/// Values in parentheses.
#[cycle(put_value)]
fn put_values(alloc: Global, out: &mut Vec<u8>, values: &[Value]) -> Result<(), AllocError>
    ensures { OnOk result (out.new.items ≡ out.old.items ++ spec.in_parentheses (map spec.value_text values.now)) }
{
    out.extend_from_slice(b"(")?;
    put_list(alloc, out, values)?;
    out.extend_from_slice(b")")
}

/// These values with a comma and a space between two.
#[cycle(put_value)]
fn put_list(alloc: Global, out: &mut Vec<u8>, values: &[Value]) -> Result<(), AllocError>
    ensures { OnOk result (out.new.items ≡ out.old.items ++ spec.separated (map spec.value_text values.now)) }
{
    let mut mark: &[u8] = b"";
    for value in values {
        out.extend_from_slice(mark)?;
        put_value(alloc, out, value)?;
        mark = b", ";
    }
    Ok(())
}

/// `NAME = VALUE`
#[tactic(auto, using(spx_report::proofs::Texts::texts), unfolding(crate::specs::Results::output_line))]
fn put_output(alloc: Global, out: &mut Vec<u8>, output: &Output) -> Result<(), AllocError>
    ensures { OnOk result (out.new.items ≡ out.old.items ++ spec.output_line output.now) }
{
    out.extend_from_slice(output.name.as_bytes())?;
    out.extend_from_slice(b" = ")?;
    put_value(alloc, out, &output.value)?;
    out.extend_from_slice(b"\n")
}

/// The exports, each on a line.
pub(crate) fn put_outputs(
    alloc: Global,
    out: &mut Vec<u8>,
    outputs: &[Output],
) -> Result<(), AllocError>
    ensures { OnOk result (out.new.items ≡ out.old.items ++ flat_map spec.output_line outputs.now) }
{
    for output in outputs {
        put_output(alloc, out, output)?;
    }
    Ok(())
}

/// The word for what has failed.
fn bad_text(kind: BadKind) -> &'static [u8]
    ensures { result.now ≡ spec.bad_text kind }
{
    match kind {
        BadKind::Division => b"division",
        BadKind::Overflow => b"overflow",
        BadKind::Range => b"range",
        BadKind::Index => b"index",
        BadKind::Unset => b"unset",
        BadKind::Pre => b"pre",
        BadKind::Post => b"post",
        BadKind::Assert => b"assert",
        BadKind::Check => b"check",
    }
}

/// `fault: KIND at FILE:LINE:COLUMN`
#[tactic(auto, using(spx_report::proofs::Texts::texts), unfolding(crate::specs::Results::fault_line))]
pub(crate) fn put_fault(
    alloc: Global,
    out: &mut Vec<u8>,
    files: &[String],
    fault: Bad,
) -> Result<(), AllocError>
    ensures { OnOk result (out.new.items ≡ out.old.items ++ spec.fault_line (names files.now) fault) }
{
    out.extend_from_slice(b"fault: ")?;
    out.extend_from_slice(bad_text(fault.kind))?;
    out.extend_from_slice(b" at ")?;
    out.extend_from_slice(spot_text(alloc, files, fault.place)?.as_slice())?;
    out.extend_from_slice(b"\n")
}

/// `N WHAT`
#[tactic(auto, using(spx_report::proofs::Texts::texts), unfolding(spx_report::specs::Report::counted))]
fn put_count(alloc: Global, out: &mut Vec<u8>, count: u64, what: &[u8]) -> Result<(), AllocError>
    ensures { OnOk result (out.new.items ≡ out.old.items ++ counted count what.now) }
{
    out.extend_from_slice(decimal(alloc, i128::from(count))?.as_slice())?;
    out.extend_from_slice(what)
}

/// `not ended within N turns`
#[tactic(auto, using(spx_report::proofs::Texts::texts), unfolding(crate::specs::Results::turns_line, spx_report::specs::Report::counted))]
pub(crate) fn put_turns(alloc: Global, out: &mut Vec<u8>, turns: u64) -> Result<(), AllocError>
    ensures { OnOk result (out.new.items ≡ out.old.items ++ spec.turns_line turns) }
{
    out.extend_from_slice(b"not ended within ")?;
    put_count(alloc, out, turns, b" turns\n")
}

/// A finding on a line of the inputs.
#[tactic(auto, using(spx_report::proofs::Texts::texts), unfolding(crate::specs::Mirror::place_line))]
fn put_at(
    alloc: Global,
    out: &mut Vec<u8>,
    files: &[String],
    place: Place,
    what: &[u8],
) -> Result<(), AllocError>
    ensures { OnOk result (out.new.items ≡ out.old.items ++ place_line (names files.now) place what.now) }
{
    out.extend_from_slice(place_text(alloc, files, place)?.as_slice())?;
    out.extend_from_slice(what)
}

/// A finding on a name.
#[tactic(auto, using(spx_report::proofs::Texts::texts), unfolding(crate::specs::Mirror::name_line))]
fn put_named(out: &mut Vec<u8>, what: &[u8], name: &Text) -> Result<(), AllocError>
    ensures { OnOk result (out.new.items ≡ out.old.items ++ name_line what.now name.now) }
{
    out.extend_from_slice(what)?;
    out.extend_from_slice(name.as_bytes())?;
    out.extend_from_slice(b"\n")
}

/// A finding, with its place or without one.
#[tactic(auto, unfolding(crate::specs::Results::input_line, crate::specs::Mirror::place_line, crate::specs::Mirror::name_line))]
fn put_finding(
    alloc: Global,
    out: &mut Vec<u8>,
    files: &[String],
    finding: &InputFinding,
) -> Result<(), AllocError>
    ensures { OnOk result (out.new.items ≡ out.old.items ++ spec.input_line (names files.now) finding.now) }
{
    match finding {
        InputFinding::BadLine(place) => put_at(alloc, out, files, *place, b"I1 bad input line\n"),
        InputFinding::NoImport(place) => {
            put_at(alloc, out, files, *place, b"I2 no such import, or twice\n")
        }
        InputFinding::NotOfType(place) => {
            put_at(alloc, out, files, *place, b"I3 value is not of the type\n")
        }
        InputFinding::NoValue(name) => put_named(out, b"I4 import has no value: ", name),
        InputFinding::NoSubprogram(name) => put_named(out, b"I5 no such subprogram: ", name),
    }
}

/// The findings, each on a line.
pub(crate) fn put_findings(
    alloc: Global,
    out: &mut Vec<u8>,
    files: &[String],
    findings: &[InputFinding],
) -> Result<(), AllocError>
    ensures { OnOk result (out.new.items ≡ out.old.items ++ flat_map (spec.input_line (names files.now)) findings.now) }
{
    for finding in findings {
        put_finding(alloc, out, files, finding)?;
    }
    Ok(())
}
