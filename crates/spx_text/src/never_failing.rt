// Files and a sink that never fail.
ghost use Rattle.std.specs.Prelude.{◌≡◌, [], ◌++◌, Some, None, unwrap_or};
ghost use Rattle.spx_text.specs.Held.{bytes_held};
ghost use Rattle.spx_text.specs.Loads.{names};

use crate::files::keep_name;
use crate::memory_files::find;
use crate::{Failed, Files, HeldFile, LoadFault, Sink};
use std::alloc::Global;

/// Files in memory. A name that is not held is an empty file.
#[derive(Drop)]
pub struct NoFailFiles {
    pub alloc: Global,
    /// Of two files of one name the first counts.
    pub held: Vec<HeldFile>,
    /// The names that were asked for, the oldest first.
    pub asked: Vec<String>,
}

impl Files for NoFailFiles {
    ghost known = { λ files name. Some (unwrap_or (bytes_held files.held.items name) []) };

    ghost asked = { λ files. names files.asked.items };

    ghost failed = { λ _. [] };

    fn load(&mut self, name: &str, into: &mut Vec<u8>, most: usize) -> Result<(), LoadFault> {
        keep_name(self.alloc, &mut self.asked, name)?;
        let bytes = find(self.held.as_slice(), name).unwrap_or(&[]);
        if bytes.len() > most {
            return Err(LoadFault::TooLong);
        }
        into.extend_from_slice(bytes).map_err(|_| LoadFault::Memory)
    }
}

/// A sink that takes each piece whole, and keeps and shows no bytes.
#[derive(Drop)]
pub struct NoFailSink;

impl Sink for NoFailSink {
    ghost taken = { λ _. None };

    ghost faults = { λ _. 0 };

    fn write(&mut self, piece: &[u8]) -> Result<usize, Failed> {
        Ok(piece.len())
    }
}
