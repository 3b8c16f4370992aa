// The whole program.
ghost use Rattle.std.specs.Prelude.{◌≡◌, ◌≢◌, ◌⊎◌, ◌↔◌, ◌<◌, ◌≤◌, ℕ, List, length, IfOk, IsErrOf};
ghost use Rattle.std.specs.List.{list_any};
ghost use Rattle.spx_text.specs.Loads.{names};
ghost use Rattle.spx_text.specs.Writes.{Rose};
ghost use Rattle.spx_examiner.specs.Words.{AsksForCheck, AsksForConditions, AsksForRun, HasNoForm};
ghost use Rattle.spx_words.specs.Words.{request_of};
ghost use Rattle.spx_examiner.specs.Judgement.{status_of, text_of};
ghost use Rattle.spx_examiner.specs.Causes as causes;
ghost use Rattle.spx_examiner.specs.Causes.{AreLoaded, AskedForFirst, Concludes, Exactly, EndsAtFailure, ForFiles, MayHold, WhereKnown, contents_of, named};
ghost use Rattle.spx_paths.specs.Fit.{Clean, Fit};
ghost use Rattle.spx_meaning.specs.Laws.{NeverBad, TwoRuns};
ghost use Rattle.spx_examiner.specs.Outcome.{AreAcceptable, AreFit, AreListed, AreRefusable, AreReliable, EndsAs, EndsBadly, HasNotEnded, HasRunTo, IsAssured, IsCutShortAs, IsJudgedOn, IsJudgement, PassLimit, SaysHowItRan, Stand};

use crate::Status;
use crate::judgement::Judgement;
use crate::laws::laws_below;
use crate::load::{MOST_BYTES, load_all};
use crate::phases::judge;
use crate::words::{asked, file_names};
use spx_core::Program;
use spx_report::LimitName;
use spx_sound::{clean_is_fit, never_bad};
use spx_text::{Failed, Files, LoadFault, Sink, write_all_pieces};
use spx_twin::two_runs;
use spx_words::CommandWords;
use std::alloc::{AllocError, Global};

/// What ends the work before there is a text.
#[derive(Clone, Copy, PartialEq, Eq, Drop)]
enum Stop {
    ReadFault,
    NoMemory,
}

impl From<AllocError> for Stop {
    ghost use Rattle.spx_examiner.specs.declared.program.Stop.TheVariants.{NoMemory};

    ghost from_gives = { λ _ stop. stop ≡ NoMemory };

    fn from(_: AllocError) -> Self {
        Stop::NoMemory
    }
}

/// What is to be written, and why.
#[derive(Drop)]
struct Report {
    judgement: Judgement,
    text: Vec<u8>,
}

fn is_too_long(bytes: &[u8]) -> bool
    ensures { result ≡ causes.is_too_long bytes.now }
{
    bytes.len() > MOST_BYTES
}

fn any_too_long(contents: &[Vec<u8>]) -> bool
    ensures { result ≡ list_any (λ bytes. causes.is_too_long bytes.items) contents.now }
{
    contents.iter().any(|bytes| is_too_long(bytes.as_slice()))
}

/// What there is to report on files with these contents, of which the first is the program.
fn examined(
    alloc: Global,
    command: &CommandWords<'_>,
    contents: &[Vec<u8>],
) -> Result<Judgement, AllocError>
    requires { 0 < length contents.now }
    ensures { IfOk result (IsJudgedOn (request_of command.now) (contents_of contents.now)) }
{
    if any_too_long(contents) {
        return Ok(Judgement::Limit(LimitName::FileSize));
    }
    judge(alloc, command, contents[0].as_slice(), &contents[1..])
}

/// What there is to report on the files of these names.
#[tactic(auto, using(crate::proofs::Endings::endings, crate::proofs::Loading::first_of_loaded))]
fn judged<F: Files>(
    alloc: Global,
    command: &CommandWords<'_>,
    named: &[String],
    files: &mut F,
) -> Result<Judgement, Stop>
    requires { 0 < length named.now }
    ensures judged { IfOk result (λ judgement. (contents : List (List ℕ)) × MayHold (F.known files.old) (names named.now) contents × IsJudgedOn (request_of command.now) contents judgement) }
    ensures known { (name : List ℕ) → F.known files.new name ≡ F.known files.old name }
    ensures loads { IfOk result (λ judgement. AreLoaded (status_of judgement ≡ Status.Limit) (F.known files.old) (names named.now) (F.asked files.old) (F.asked files.new)) }
    ensures failed { IsErrOf result Stop.ReadFault → EndsAtFailure (F.known files.old) (names named.now) (F.asked files.old) (F.asked files.new) (F.failed files.old) (F.failed files.new) }
    ensures none_failed { (IsErrOf result Stop.ReadFault → ⊥) → F.failed files.new ≡ F.failed files.old }
    ensures first { IsErrOf result Stop.NoMemory → AskedForFirst (names named.now) (F.asked files.old) (F.asked files.new) }
{
    match load_all(alloc, named, files) {
        Ok(loaded) => Ok(examined(alloc, command, loaded.as_slice())?),
        Err(LoadFault::TooLong) => Ok(Judgement::Limit(LimitName::FileSize)),
        Err(LoadFault::Failed) => Err(Stop::ReadFault),
        Err(LoadFault::Memory) => Err(Stop::NoMemory),
    }
}

/// The text of a judgement on files of these names.
fn reported(alloc: Global, files: &[String], judgement: Judgement) -> Result<Report, AllocError>
    ensures judgement { IfOk result (λ made. made.judgement ≡ judgement) }
    ensures text { IfOk result (λ made. made.text.items ≡ text_of (names files.now) judgement) }
{
    let text = judgement.text(alloc, files)?;
    Ok(Report { judgement, text })
}

/// What the laws say of a program on which there is nothing to report.
fn rely_on(program: &Program)
    ensures { Clean program.now → Fit program.now × NeverBad program.now × TwoRuns program.now }
{
    clean_is_fit(program);
    never_bad(program);
    two_runs(program);
}

/// What the laws say of the program in a judgement.
fn assure(judgement: &Judgement)
    ensures { IsAssured judgement.now }
{
    match judgement {
        Judgement::Usage => {}
        Judgement::Limit(_) => {}
        Judgement::Refused(_) => {}
        Judgement::Examined(program, _) => rely_on(program),
        Judgement::Listed(_) => {}
        Judgement::Ran(_) => {}
    }
}

/// All the work but the writing.
#[tactic(auto, using(crate::proofs::Endings::some_named, crate::proofs::Loading::first_of_loaded, crate::proofs::Loading::first_of_none))]
fn prepare<F: Files>(alloc: Global, words: &[String], files: &mut F) -> Result<Report, Stop>
    ensures text { IfOk result (λ made. made.text.items ≡ text_of (named (names words.now)) made.judgement) }
    ensures judged { IfOk result (λ made. ForFiles (F.known files.old) (names words.now) (λ contents. IsJudgement (names words.now) contents made.judgement)) }
    ensures known { (name : List ℕ) → F.known files.new name ≡ F.known files.old name }
    ensures loads { IfOk result (λ made. AreLoaded (status_of made.judgement ≡ Status.Limit) (F.known files.old) (named (names words.now)) (F.asked files.old) (F.asked files.new)) }
    ensures failed { IsErrOf result Stop.ReadFault → EndsAtFailure (F.known files.old) (named (names words.now)) (F.asked files.old) (F.asked files.new) (F.failed files.old) (F.failed files.new) }
    ensures none_failed { (IsErrOf result Stop.ReadFault → ⊥) → F.failed files.new ≡ F.failed files.old }
    ensures first { IsErrOf result Stop.NoMemory → AskedForFirst (named (names words.now)) (F.asked files.old) (F.asked files.new) }
{
    let Some(command) = asked(alloc, words)? else {
        return Ok(reported(alloc, &[], Judgement::Usage)?);
    };
    let named = file_names(alloc, &command)?;
    let judgement = judged(alloc, &command, named.as_slice(), files)?;
    Ok(reported(alloc, named.as_slice(), judgement)?)
}

/// Does all that the program does, with the words after its name.
///
/// The status is `Accepted` or `Refused` where the report on the files, the conditions or what the run comes to were written, and
/// `Usage`, `Limit`, `RunFault` and `NotEnded` where the one line of that name was. Only the two faults and out of memory are answers that the words and the files do not
/// decide.
pub fn examine<F: Files, S: Sink>(
    alloc: Global,
    words: &[String],
    files: &mut F,
    sink: &mut S,
) -> Status
    // The report is that on the words and on contents that the files may have, which are what the files give where they give
    // their bytes. Its text was written, and the status is its own: `Refused` exactly where it has findings.
    ensures outcome { Concludes result → ForFiles (F.known files.old) (names words.now) (λ contents.
        EndsAs (names words.now) contents result (S.taken sink.old) (S.taken sink.new)) }

    // The headline: where a check accepts a program, the bytes spell exactly one program, and its runs may be relied on.
    ensures headline { AsksForCheck (names words.now) → result ≡ Status.Accepted → ForFiles (F.known files.old) (names words.now) (λ contents.
        EndsAs (names words.now) contents result (S.taken sink.old) (S.taken sink.new) × AreReliable contents) }

    // What a check accepts is clean, and so fit to run.
    ensures clean { AsksForCheck (names words.now) → WhereKnown (F.known files.old) (names words.now) (λ contents. result ≡ Status.Accepted → AreFit contents) }

    // Where conditions are asked for and the answer is `Accepted`, the text of the conditions of the one program that the bytes spell was
    // written.
    ensures listed { AsksForConditions (names words.now) → result ≡ Status.Accepted → ForFiles (F.known files.old) (names words.now) (λ contents.
        AreListed (names words.now) contents (S.taken sink.old) (S.taken sink.new)) }

    // Where a run is asked for and the answer says how it ended, or that it has not, the text of what the run comes to was written.
    ensures ran { AsksForRun (names words.now) → SaysHowItRan result → ForFiles (F.known files.old) (names words.now) (λ contents.
        HasRunTo (names words.now) contents (S.taken sink.old) (S.taken sink.new)) }

    // Where no fault is counted, what is acceptable is accepted, unless memory runs out.
    ensures complete { WhereKnown (F.known files.old) (names words.now) (λ contents. AreAcceptable (names words.now) contents
        → F.failed files.new ≡ F.failed files.old → ¬ Rose (S.faults sink.old) (S.faults sink.new)
        → (result ≡ Status.Accepted) ⊎ (result ≡ Status.NoMemory)) }

    // A check is accepted exactly where there is nothing to report; conditions, where there is nothing to report before them; a run, where
    // it ends well.
    ensures accepted { WhereKnown (F.known files.old) (names words.now) (λ contents.
        Exactly Status.Accepted (AreAcceptable (names words.now) contents) result) }
    ensures refused { WhereKnown (F.known files.old) (names words.now) (λ contents.
        Exactly Status.Refused (AreRefusable (names words.now) contents) result) }
    ensures usage { Exactly Status.Usage (HasNoForm (names words.now)) result }
    ensures limit { WhereKnown (F.known files.old) (names words.now) (λ contents.
        Exactly Status.Limit (PassLimit (names words.now) contents) result) }
    ensures run_fault { WhereKnown (F.known files.old) (names words.now) (λ contents.
        Exactly Status.RunFault (Stand EndsBadly (names words.now) contents) result) }
    ensures not_ended { WhereKnown (F.known files.old) (names words.now) (λ contents.
        Exactly Status.NotEnded (Stand HasNotEnded (names words.now) contents) result) }

    // A read fault comes exactly where a load failed, of a file that the words name. Those before it were loaded, and no other was asked for.
    ensures read_fault { result ≡ Status.ReadFault → EndsAtFailure (F.known files.old) (named (names words.now)) (F.asked files.old) (F.asked files.new) (F.failed files.old) (F.failed files.new) }
    ensures no_read_fault { result ≢ Status.ReadFault → F.failed files.new ≡ F.failed files.old }

    // Else all files that the words name were loaded, in their order, or one is too long, and none after it was asked for.
    ensures loads { result ≢ Status.ReadFault → result ≢ Status.NoMemory
        → AreLoaded ((result ≡ Status.Limit) ⊎ (result ≡ Status.WriteFault)) (F.known files.old) (named (names words.now)) (F.asked files.old) (F.asked files.new) }

    // Where memory runs out, the files that were asked for are the first of those, in their order.
    ensures no_memory { result ≡ Status.NoMemory → AskedForFirst (named (names words.now)) (F.asked files.old) (F.asked files.new) }

    // A write fault comes only where the sink counted one, and then a part of the report's text was taken.
    ensures write_fault { result ≡ Status.WriteFault → Rose (S.faults sink.old) (S.faults sink.new) }
    ensures part { result ≡ Status.WriteFault → ForFiles (F.known files.old) (names words.now) (λ contents.
        IsCutShortAs (names words.now) contents (S.taken sink.old) (S.taken sink.new)) }

    // No other answer comes with any text.
    ensures nothing { (result ≡ Status.ReadFault) ⊎ (result ≡ Status.NoMemory) → S.taken sink.new ≡ S.taken sink.old }

    // The files give afterwards what they gave before, and the sink's count of faults never falls.
    ensures known { (name : List ℕ) → F.known files.new name ≡ F.known files.old name }
    ensures later { S.faults sink.old ≤ S.faults sink.new }
{
    laws_below();
    let made = match prepare(alloc, words, files) {
        Ok(made) => made,
        Err(Stop::ReadFault) => return Status::ReadFault,
        Err(Stop::NoMemory) => return Status::NoMemory,
    };
    assure(&made.judgement);
    match write_all_pieces(sink, made.text.as_slice()) {
        Ok(()) => made.judgement.status(),
        Err(Failed) => Status::WriteFault,
    }
}
