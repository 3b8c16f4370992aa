// Files and sinks.
use spx_text::{
    Failed, Files, HeldFile, HostFiles, HostSink, LoadFault, MemFiles, MemSink, NoFailFiles,
    NoFailSink, Sink, write_all_pieces,
};
use std::alloc::{AllocError, Global};
use std::test::Fail;
use std::{fs, io};

fn bytes(alloc: Global, count: usize) -> Result<Vec<u8>, AllocError> {
    let mut made = Vec::new(alloc);
    for i in 0..count {
        made.push((i % 251) as u8)?;
    }
    Ok(made)
}

#[test]
fn host_files_are_loaded_whole(rt: HostRuntime) -> Result<(), Fail> {
    let alloc = rt.alloc();
    let long = bytes(alloc, 100_000)?;
    fs::write(&rt, "empty", "")?;
    fs::write(&rt, "long", long.as_slice())?;
    let mut files = HostFiles::new(&rt, alloc);

    let mut loaded = Vec::new(alloc);
    assert_eq!(rt; files.load("empty", &mut loaded, 0), Ok(()));
    assert_eq!(rt; loaded.len(), 0);
    assert_eq!(rt; files.load("long", &mut loaded, 100_000), Ok(()));
    assert!(rt; loaded.as_slice() == long.as_slice());

    // A refused load leaves what was loaded before.
    assert_eq!(rt;
        files.load("long", &mut loaded, 99_999),
        Err(LoadFault::TooLong)
    );
    assert_eq!(rt;
        files.load("missing", &mut loaded, 99_999),
        Err(LoadFault::Failed)
    );
    assert!(rt; loaded.as_slice() == long.as_slice());
    Ok(())
}

#[test]
fn a_sink_takes_what_it_has_room_for(rt: HostRuntime) -> Result<(), Fail> {
    let alloc = rt.alloc();
    let mut sink = MemSink::new(alloc, 5, 2, Vec::new(alloc))?;
    assert_eq!(rt; write_all_pieces(&mut sink, b"abcdefg"), Err(Failed));
    assert_eq!(rt; sink.taken.as_slice(), b"abcde".as_slice());
    assert_eq!(rt; sink.faults, 1);
    Ok(())
}

#[test]
fn loads_fail_at_the_calls_of_the_list(rt: HostRuntime) -> Result<(), Fail> {
    let alloc = rt.alloc();
    let held = vec![in alloc;
        HeldFile {
            name: String::from_str(alloc, "a")?,
            bytes: b"one".as_slice().to_vec(alloc)?,
        },
    ]?;
    let mut files = MemFiles::new(alloc, held, vec![in alloc; 1]?);
    let mut loaded = Vec::new(alloc);
    assert_eq!(rt; files.load("a", &mut loaded, 3), Ok(()));
    assert_eq!(rt; files.load("a", &mut loaded, 3), Err(LoadFault::Failed));
    assert_eq!(rt; files.load("a", &mut loaded, 2), Err(LoadFault::TooLong));
    assert_eq!(rt; files.load("b", &mut loaded, 3), Err(LoadFault::Failed));
    assert_eq!(rt; loaded.as_slice(), b"one".as_slice());
    assert_eq!(rt; files.failed.len(), 2);

    assert_eq!(rt; files.asked.len(), 4);

    let mut never = NoFailFiles {
        alloc,
        held: Vec::new(alloc),
        asked: Vec::new(alloc),
    };
    assert_eq!(rt; never.load("b", &mut loaded, 0), Ok(()));
    assert_eq!(rt; write_all_pieces(&mut NoFailSink, b"abc"), Ok(()));
    let mut out = HostSink::new(io::sink());
    assert_eq!(rt; write_all_pieces(&mut out, b"abc"), Ok(()));
    Ok(())
}

// A writer that takes one byte, and then none; a third call fails.
#[derive(Drop)]
struct Stuck {
    calls: u8,
}

impl io::Write for Stuck {
    fn write(&mut self, buf: &[u8]) -> io::Result<usize> {
        self.calls = self.calls.saturating_add(1);
        match self.calls {
            1 => Ok(buf.len().min(1)),
            2 => Ok(0),
            _ => Err(io::Error::from(io::ErrorKind::BrokenPipe)),
        }
    }

    fn flush(&mut self) -> io::Result<()> {
        Ok(())
    }
}

#[test]
fn a_host_sink_counts_what_fails(rt: HostRuntime) {
    let mut sink = HostSink::new(Stuck { calls: 0 });
    assert_eq!(rt; sink.write(b"abc"), Ok(1));
    assert_eq!(rt; sink.write(b"bc"), Err(Failed));
    assert_eq!(rt; sink.write(b"bc"), Err(Failed));
    assert_eq!(rt; sink.write(b""), Ok(0));
    assert_eq!(rt; write_all_pieces(&mut sink, b"bc"), Err(Failed));
}
