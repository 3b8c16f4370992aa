// Files and sinks that fail, at the top call.
use spx_examiner::{Status, examine};
use spx_text::{HeldFile, MemFiles, MemSink};
use std::alloc::{AllocError, Global};
use std::test::Fail;

const SOURCE: &[u8] =
    b"procedure Inc (X : in out Integer)\n--# derives X from X;\n--# pre X < Integer'Last;\nis\nbegin\n   X := X + 1;\nend Inc;\n";

const REPORT: &[u8] = b"Inc: 2 conditions, 2 simplified, 0 scripted, 0 open\naccepted\n";

const CHECK: &str = "check inc.adb";

const RUN: &str = "run --entry Inc --inputs inc.txt inc.adb";

/// What fails, and what comes of it.
#[derive(Drop)]
struct Case {
    words: &'static str,
    /// The load that fails, from 0.
    load: Option<u64>,
    /// How many bytes the sink takes at once.
    most: usize,
    /// The write that fails, from 0.
    write: Option<u64>,
    status: Status,
    /// How many bytes of the report are taken.
    taken: usize,
    /// How many files are asked for.
    asked: usize,
}

fn load_fails(words: &'static str, load: u64, asked: usize) -> Case {
    Case {
        words,
        load: Some(load),
        most: 16,
        write: None,
        status: Status::ReadFault,
        taken: 0,
        asked,
    }
}

fn write_fails(most: usize, write: Option<u64>, taken: usize) -> Case {
    Case {
        words: CHECK,
        load: None,
        most,
        write,
        status: Status::WriteFault,
        taken,
        asked: 1,
    }
}

/// The report takes four writes of at most 16 bytes.
fn cases(alloc: Global) -> Result<Vec<Case>, AllocError> {
    let cases = vec![in alloc;
        load_fails(CHECK, 0, 1),
        load_fails(RUN, 0, 1),
        load_fails(RUN, 1, 2),
        write_fails(16, Some(0), 0),
        write_fails(16, Some(1), 16),
        write_fails(16, Some(2), 32),
        write_fails(16, Some(3), 48),
        write_fails(0, None, 0),
    ]?;
    Ok(cases)
}

fn held(alloc: Global, name: &str, text: &[u8]) -> Result<HeldFile, AllocError> {
    Ok(HeldFile {
        name: String::from_str(alloc, name)?,
        bytes: Vec::from_slice(alloc, text)?,
    })
}

/// The program and its inputs, of which this load fails.
fn files(alloc: Global, load: Option<u64>) -> Result<MemFiles, AllocError> {
    let held = vec![in alloc;
        held(alloc, "inc.adb", SOURCE)?,
        held(alloc, "inc.txt", b"X = 41\n")?,
    ]?;
    let failing = Vec::from_slice(alloc, load.as_slice())?;
    Ok(MemFiles::new(alloc, held, failing))
}

fn words(alloc: Global, line: &str) -> Result<Vec<String>, AllocError> {
    let mut words = Vec::new(alloc);
    for word in line.split(' ') {
        words.push(String::from_str(alloc, word)?)?;
    }
    Ok(words)
}

/// Whether it comes to what the case says.
fn is_as_said(alloc: Global, case: &Case) -> Result<bool, AllocError> {
    let words = words(alloc, case.words)?;
    let mut files = files(alloc, case.load)?;
    let failing = Vec::from_slice(alloc, case.write.as_slice())?;
    let mut sink = MemSink::new(alloc, 100, case.most, failing)?;
    let status = examine(alloc, words.as_slice(), &mut files, &mut sink);
    Ok(
        status == case.status
            && sink.taken.as_slice() == REPORT.get(..case.taken).unwrap_or(&[])
            && files.asked.len() == case.asked,
    )
}

#[test]
fn a_fault_ends_the_work_where_it_comes(rt: HostRuntime) -> Result<(), Fail> {
    let alloc = rt.alloc();
    let cases = cases(alloc)?;
    for case in cases.as_slice() {
        assert!(rt; is_as_said(alloc, case)?, "{}", case.words);
    }
    Ok(())
}
