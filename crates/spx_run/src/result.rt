// What a run comes to, and its text.
ghost use Rattle.std.specs.Prelude.{◌≡◌, ◌++◌, IfOk, OnOk};
ghost use Rattle.spx_text.specs.Loads.{names};
ghost use Rattle.spx_run.specs.Results.{result_text};

use crate::printing::{put_fault, put_findings, put_outputs, put_turns};
use spx_meaning::{Bad, Value};
use spx_report::{LimitName, verdict_text};
use spx_text::{Place, Text};
use sqlite_items::Items;
use std::alloc::{AllocError, Global};

/// What is wrong with inputs, or with the name of the subprogram.
#[derive(Drop)]
pub enum InputFinding {
    /// A line is not `NAME = VALUE`.
    BadLine(Place),
    /// No import has the name of the line, or an earlier line has it.
    NoImport(Place),
    /// The value is none of the import's type.
    NotOfType(Place),
    /// The import of this name has no value.
    NoValue(Text),
    /// No subprogram has this name.
    NoSubprogram(Text),
}

/// An export after a run.
#[derive(Drop)]
pub struct Output {
    /// The name as it is declared.
    pub name: Text,
    pub value: Value,
}

/// What a run comes to.
#[derive(Drop)]
pub enum RunResult {
    /// There is no run, for these reasons.
    Refused(Items<InputFinding>),
    /// A limit is passed: that on the array elements of the variables before the run, or that on the bits of a number that an
    /// annotation computes in it.
    TooLarge(LimitName),
    /// A check fails.
    Faulted(Bad),
    /// The run does not end within so many turns.
    NotEnded(u64),
    /// It ends, with these exports.
    Ended(Items<Output>),
}

impl RunResult {
    /// What is printed, where the files have these names.
    #[tactic(auto, using(spx_report::proofs::Texts::texts), unfolding(crate::specs::Results::result_text))]
    pub fn text(&self, alloc: Global, files: &[String]) -> Result<Vec<u8>, AllocError>
        ensures { IfOk result (λ text. text.items ≡ result_text (names files.now) self.now) }
    {
        let mut out = Vec::new(alloc);
        self.put_text(alloc, &mut out, files)?;
        Ok(out)
    }

    /// Adds what is printed.
    #[tactic(auto, using(spx_report::proofs::Texts::texts), unfolding(crate::specs::Results::result_text))]
    fn put_text(&self, alloc: Global, out: &mut Vec<u8>, files: &[String]) -> Result<(), AllocError>
        ensures { OnOk result (out.new.items ≡ out.old.items ++ result_text (names files.now) self.now) }
    {
        match self {
            RunResult::Refused(findings) => {
                put_findings(alloc, out, files, findings.as_slice())?;
                out.extend_from_slice(verdict_text(alloc, findings.len())?.as_slice())
            }
            RunResult::TooLarge(limit) => out.extend_from_slice(limit.text()),
            RunResult::Faulted(fault) => put_fault(alloc, out, files, *fault),
            RunResult::NotEnded(turns) => put_turns(alloc, out, *turns),
            RunResult::Ended(outputs) => put_outputs(alloc, out, outputs.as_slice()),
        }
    }
}
