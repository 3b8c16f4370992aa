// Files and a sink over std. No content is known.
ghost use Rattle.std.specs.Prelude.{◌≡◌, [], None, length, take};
ghost use Rattle.spx_text.specs.Loads.{names};

use crate::files::{keep_failed, keep_name};
use crate::sink::count_fault;
use crate::{Failed, Files, LoadFault, Sink};
use std::alloc::Global;
use std::fs;
use std::io::{Read, Write};

/// How many bytes are read at once.
const PIECE: usize = 16384;

/// The files of the system. No content is known.
#[derive(Drop)]
pub struct HostFiles<'a, R: std::rt::Files> {
    rt: &'a R,
    alloc: Global,
    asked: Vec<String>,
    failed: Vec<String>,
}

impl<'a, R: std::rt::Files> HostFiles<'a, R> {
    /// Files of the host, none of which was asked for yet.
    pub fn new(rt: &'a R, alloc: Global) -> Self
        ensures asked { ⟦<HostFiles<'a, R> as Files>⟧.asked result ≡ [] }
        ensures failed { ⟦<HostFiles<'a, R> as Files>⟧.failed result ≡ [] }
    {
        HostFiles {
            rt,
            alloc,
            asked: Vec::new(alloc),
            failed: Vec::new(alloc),
        }
    }
}

// Appends the bytes of a file, and stops once they are more than `most`.
fn read_file<R: std::rt::Files>(
    rt: &R,
    name: &str,
    into: &mut Vec<u8>,
    most: usize,
) -> Result<(), LoadFault>
    ensures kept { take (length into.old.items) into.new.items ≡ into.old.items }
{
    let mut file = match fs::open(rt, name) {
        Ok(file) => file,
        Err(_) => return Err(LoadFault::Failed),
    };
    let mut piece = [0u8; PIECE];
    let mut room = most;
    loop {
        let read = match file.read(&mut piece) {
            Ok(0) => return Ok(()),
            Ok(read) => read,
            Err(_) => return Err(LoadFault::Failed),
        };
        if read > room {
            return Err(LoadFault::TooLong);
        }
        if into.extend_from_slice(&piece[..read]).is_err() {
            return Err(LoadFault::Memory);
        }
        room -= read;
    }
}

impl<'a, R: std::rt::Files> Files for HostFiles<'a, R> {
    ghost known = { λ _ _. None };

    ghost asked = { λ files. names files.asked.items };

    ghost failed = { λ files. names files.failed.items };

    fn load(&mut self, name: &str, into: &mut Vec<u8>, most: usize) -> Result<(), LoadFault> {
        keep_name(self.alloc, &mut self.asked, name)?;
        let before = into.len();
        let answer = read_file(self.rt, name, into, most);
        if answer.is_err() {
            into.truncate(before);
        }
        match answer {
            Err(LoadFault::Failed) => Err(keep_failed(self.alloc, &mut self.failed, name)),
            other => other,
        }
    }
}

/// A writer of std. Its count of faults stands still at the end of its type.
#[derive(Drop)]
pub struct HostSink<W: Write> {
    out: W,
    faults: u64,
}

impl<W: Write> HostSink<W> {
    /// A sink over a writer, with no fault counted.
    pub fn new(out: W) -> Self
        ensures { ⟦<HostSink<W> as Sink>⟧.faults result ≡ 0 }
    {
        HostSink { out, faults: 0 }
    }
}

impl<W: Write> Sink for HostSink<W> {
    ghost taken = { λ _. None };

    ghost faults = { λ sink. sink.faults };

    fn write(&mut self, piece: &[u8]) -> Result<usize, Failed> {
        if piece.is_empty() {
            return Ok(0);
        }
        match self.out.write(piece) {
            Ok(count) if count > 0 => Ok(count),
            _ => Err(count_fault(&mut self.faults)),
        }
    }
}
