//! Asks about the texts of a table that it reads, each as a file in memory, and prints what is answered on each.
//!
//! A line `%% NAME` begins the text of that name, which are the lines up to the next header; under `%- NAME` the last of them has no
//! end. It is asked for by `check NAME`. Under `%? NAME WORD..` it is asked for by these words, each after one space, so that a word
//! has no space in it. After a text may come a second file for the same words: its name and its lines, after `%+ NAME`, or after
//! `%= NAME` where the last of them has no end.
#![tactic(auto)]

mod case;

use case::{Case, Header, Kind, cases};
use spx_examiner::{Status, examine};
use spx_text::{HeldFile, MemFiles, MemSink};
use std::alloc::{AllocError, Global};
use std::io::{self, Read, Write};
use std::str;

/// More bytes than what is printed on one text has: reports have some lines, and the longest list of conditions of a file of
/// examples/ has some 76000 bytes.
const ROOM: usize = 131072;

/// What was answered and written.
#[derive(Drop)]
struct Answer {
    status: Status,
    sink: MemSink,
}

/// The label of a header as text.
fn label_of<'a>(header: &Header<'a>) -> io::Result<&'a str> {
    match str::from_utf8(header.label) {
        Ok(label) => Ok(label),
        Err(_) => Err(io::Error::from(io::ErrorKind::InvalidData)),
    }
}

/// The words of a line, each but the first after one space.
fn split_words(alloc: Global, line: &str) -> Result<Vec<String>, AllocError> {
    let mut words = Vec::new(alloc);
    for word in line.split(' ') {
        words.push(String::from_str(alloc, word)?)?;
    }
    Ok(words)
}

/// The name of a text and the words that ask of it.
fn name_and_words(alloc: Global, header: &Header<'_>) -> io::Result<Vec<String>> {
    let label = label_of(header)?;
    if header.kind == Kind::Asked {
        return Ok(split_words(alloc, label)?);
    }
    let mut words = Vec::new(alloc);
    words.push(String::from_str(alloc, label)?)?;
    words.push(String::from_str(alloc, "check")?)?;
    words.push(String::from_str(alloc, label)?)?;
    Ok(words)
}

fn held(alloc: Global, name: &str, case: &Case<'_>) -> Result<HeldFile, AllocError> {
    Ok(HeldFile {
        name: String::from_str(alloc, name)?,
        bytes: Vec::from_slice(alloc, case.text())?,
    })
}

/// Files in memory that hold only this text, and the second file.
fn files(
    alloc: Global,
    name: &str,
    case: &Case<'_>,
    second: Option<&Case<'_>>,
) -> io::Result<MemFiles> {
    let mut all = Vec::new(alloc);
    all.push(held(alloc, name, case)?)?;
    if let Some(second) = second {
        all.push(held(alloc, label_of(&second.header)?, second)?)?;
    }
    Ok(MemFiles::new(alloc, all, Vec::new(alloc)))
}

fn answered(alloc: Global, case: &Case<'_>, second: Option<&Case<'_>>) -> io::Result<Answer> {
    let name_and_words = name_and_words(alloc, &case.header)?;
    let [name, words @ ..] = name_and_words.as_slice() else {
        return Err(io::Error::from(io::ErrorKind::InvalidData));
    };
    let mut files = files(alloc, name.as_str(), case, second)?;
    let mut sink = MemSink::new(alloc, ROOM, ROOM, Vec::new(alloc))?;
    let status = examine(alloc, words, &mut files, &mut sink);
    Ok(Answer { status, sink })
}

/// Prints the header, the report and the status.
fn show<W: Write>(
    alloc: Global,
    case: &Case<'_>,
    second: Option<&Case<'_>>,
    out: &mut W,
) -> io::Result<()> {
    let answer = answered(alloc, case, second)?;
    out.write_all(case.header.line)?;
    out.write_all(b"\n")?;
    out.write_all(answer.sink.taken.as_slice())?;
    let code = answer.status.code();
    writeln!(out, "status {code}")
}

/// The second file of the case before these, if they begin with one.
fn second_of<'b, 'a>(rest: &'b [Case<'a>]) -> Option<&'b Case<'a>> {
    match rest {
        [next, ..] if next.header.kind == Kind::Second => Some(next),
        _ => None,
    }
}

/// Shows the first of these, if it is a case and no second file.
fn show_first<W: Write>(alloc: Global, cases: &[Case<'_>], out: &mut W) -> io::Result<()> {
    match cases {
        [case, rest @ ..] if case.header.kind != Kind::Second => {
            show(alloc, case, second_of(rest), out)
        }
        _ => Ok(()),
    }
}

fn main(rt: HostRuntime) -> io::Result<()> {
    let alloc = rt.alloc();
    let mut table = Vec::new(alloc);
    rt.reader().read_to_end(&mut table)?;
    let mut out = io::writer(&rt);
    let cases = cases(alloc, table.as_slice())?;
    let cases = cases.as_slice();
    for at in 0..cases.len() {
        show_first(alloc, &cases[at..], &mut out)?;
    }
    Ok(())
}
