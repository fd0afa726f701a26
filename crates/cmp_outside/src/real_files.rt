//! The files of the system.
ghost use Rattle.std.specs.Prelude.{◌≡◌, ◌≤◌, None, IfOk, vec_len};
ghost use Rattle.cmp_outside.specs.Faults.{FaultLog, no_faults};

use crate::fault_log::FaultCounter;
use crate::source::{ReadEnd, Source};
use std::alloc::Global;
use std::fs::{File, Files};
use std::io::{ErrorKind, Read};
use std::marker::Model;

/// The files of the system. It tells nothing of what they hold; clauses see it as the log of its
/// faults.
#[derive(Drop)]
pub struct RealFiles<'a, R: Files> {
    rt: &'a R,
    log: FaultCounter,
}

impl<'a, R: Files> Model for RealFiles<'a, R> {
    ghost use Rattle.cmp_outside.specs.Faults.{FaultLog};

    ghost Value = { FaultLog };

    ghost view = { λ r. r.log };
}

impl<'a, R: Files> RealFiles<'a, R> {
    /// Reads through this runtime.
    pub fn make(rt: &'a R) -> RealFiles<'a, R>
        ensures { result ≡ no_faults }
    {
        RealFiles {
            rt,
            log: FaultCounter::new(),
        }
    }
}

impl<'a, R: Files> Source for RealFiles<'a, R> {
    ghost told = { λ _ _. None };

    ghost faults = { λ log. log.faults };

    ghost last_failed = { λ log. log.last_failed };

    /// Opens the file and reads it to its end, or until more than `limit` bytes came.
    ///
    /// A file that cannot be opened or read is a fault. Where a copy of its name finds no memory,
    /// the answer is `Memory` and no fault is counted.
    fn read_file(&mut self, alloc: Global, name: &str, limit: u64) -> Result<Vec<u8>, ReadEnd> {
        match read_whole(self.rt, alloc, name, limit) {
            Ok(bytes) => Ok(bytes),
            Err(ReadEnd::TooLong) => Err(ReadEnd::TooLong),
            Err(ReadEnd::Memory) => Err(ReadEnd::Memory),
            Err(ReadEnd::Failed) => match self.log.note(alloc, name) {
                Ok(()) => Err(ReadEnd::Failed),
                Err(_) => Err(ReadEnd::Memory),
            },
        }
    }
}

/// How many bytes one read asks for.
const CHUNK: usize = 8192;

/// The bytes of the file, from its beginning to the first read that gives nothing.
///
/// It stops once more than `limit` bytes came. A read that a signal cut short is tried again.
fn read_whole<R: Files>(rt: &R, alloc: Global, name: &str, limit: u64) -> Result<Vec<u8>, ReadEnd>
    ensures { IfOk result (λ v. vec_len v ≤ limit) }
{
    let mut file = match File::open(rt, name) {
        Ok(file) => file,
        Err(_) => return Err(ReadEnd::Failed),
    };
    let mut bytes = Vec::new(alloc);
    let mut chunk = [0u8; CHUNK];
    'reads: for _ in 0..u64::MAX {
        let count = match file.read(&mut chunk) {
            Ok(0) => return Ok(bytes),
            Ok(count) => count,
            Err(e) if e.kind() == ErrorKind::Interrupted => continue,
            Err(_) => return Err(ReadEnd::Failed),
        };
        if count as u64 > limit - bytes.len() as u64 {
            return Err(ReadEnd::TooLong);
        }
        match bytes.extend_from_slice(&chunk[..count]) {
            Ok(()) => {}
            Err(_) => return Err(ReadEnd::Memory),
        }
    }
    Err(ReadEnd::Failed)
}
