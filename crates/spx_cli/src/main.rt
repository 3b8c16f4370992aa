//! Examines the files that its words name, and reports on standard output.
#![tactic(auto)]

use spx_examiner::{Status, examine};
use spx_text::{HostFiles, HostSink};
use std::alloc::Global;
use std::process::ExitCode;
use std::{env, io};

/// The words after the program's name. Where one is not text, there are none, which is no command.
fn words(rt: &HostRuntime, alloc: Global) -> Result<Vec<String>, Status> {
    let args = match env::args(rt) {
        Ok(args) => args,
        Err(error) if error.kind() == io::ErrorKind::OutOfMemory => return Err(Status::NoMemory),
        Err(_) => return Ok(Vec::new(alloc)),
    };
    match args.skip(1).collect(alloc) {
        Ok(words) => Ok(words),
        Err(_) => Err(Status::NoMemory),
    }
}

fn work(rt: &HostRuntime) -> Status {
    let alloc = rt.alloc();
    let words = match words(rt, alloc) {
        Ok(words) => words,
        Err(status) => return status,
    };
    let mut files = HostFiles::new(rt, alloc);
    let mut sink = HostSink::new(io::writer(rt));
    examine(alloc, words.as_slice(), &mut files, &mut sink)
}

fn main(rt: HostRuntime) -> ExitCode {
    ExitCode::from(work(&rt).code())
}
