// What the words and the files come to, before anything is written.
ghost use Rattle.std.specs.Prelude.{◌≡◌, IfOk};
ghost use Rattle.spx_text.specs.Loads.{names};
ghost use Rattle.spx_examiner.specs.Judgement.{status_of, status_of_run, text_of};

use crate::Status;
use crate::words::USAGE;
use spx_core::Program;
use spx_report::{Finding, Findings, LimitName, refusal_text, report_text};
use spx_run::RunResult;
use spx_text::Text;
use sqlite_items::Items;
use std::alloc::{AllocError, Global};

/// What there is to report.
#[derive(Drop)]
pub enum Judgement {
    /// The words have the form of no command.
    Usage,
    /// A counted quantity passes its greatest number.
    Limit(LimitName),
    /// These findings come before any conditions.
    Refused(Items<Finding>),
    /// A program, and what its conditions come to.
    Examined(Program, Findings),
    /// The conditions of a program, as they are printed.
    Listed(Text),
    /// What a run comes to.
    Ran(RunResult),
}

/// How the program ends after a run.
fn run_status(run: &RunResult) -> Status
    ensures { result ≡ status_of_run run.now }
{
    match run {
        RunResult::Refused(_) => Status::Refused,
        RunResult::TooLarge(_) => Status::Limit,
        RunResult::Faulted(_) => Status::RunFault,
        RunResult::NotEnded(_) => Status::NotEnded,
        RunResult::Ended(_) => Status::Accepted,
    }
}

impl Judgement {
    /// How the program ends where the text was written.
    pub fn status(&self) -> Status
        ensures { result ≡ status_of self.now }
    {
        match self {
            Judgement::Usage => Status::Usage,
            Judgement::Limit(_) => Status::Limit,
            Judgement::Refused(_) => Status::Refused,
            Judgement::Examined(_, findings) if findings.lines.is_empty() => Status::Accepted,
            Judgement::Examined(_, _) => Status::Refused,
            Judgement::Listed(_) => Status::Accepted,
            Judgement::Ran(run) => run_status(run),
        }
    }

    /// What is printed, where the files have these names.
    pub fn text(&self, alloc: Global, files: &[String]) -> Result<Vec<u8>, AllocError>
        ensures { IfOk result (λ text. text.items ≡ text_of (names files.now) self.now) }
    {
        match self {
            Judgement::Usage => Vec::from_slice(alloc, USAGE),
            Judgement::Limit(name) => Vec::from_slice(alloc, name.text()),
            Judgement::Refused(lines) => refusal_text(alloc, files, lines.as_slice()),
            Judgement::Examined(program, findings) => report_text(alloc, program, files, findings),
            Judgement::Listed(text) => Vec::from_slice(alloc, text.as_bytes()),
            Judgement::Ran(run) => run.text(alloc, files),
        }
    }
}
