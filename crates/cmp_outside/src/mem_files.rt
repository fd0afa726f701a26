//! Files in memory, whose reads fail on demand.
ghost use Rattle.std.specs.Prelude.{◌≡◌, ℕ, ◌≤◌, ◌<◌, List, Option, Some, None, Ok, Err, length, vec_len, IfOk, if◌then◌else◌, ◌==◌};
ghost use Rattle.std.specs.Option.{option_copied};
ghost use Rattle.std.specs.List.{list_any};
ghost use Rattle.cmp_outside.specs.Faults.{Rose};
ghost use Rattle.cmp_outside.specs.Source.{SameFiles, IfTold, OnFailed, OnTooLong, UnlessFailed};
ghost use Rattle.cmp_outside.specs.FilesState.{File, FilesState, first_named, told_of, fresh_files, read_answer, IsAnswer, after_read};

use crate::fault_log::FaultCounter;
use crate::source::{ReadEnd, Source};
use std::alloc::Global;
use std::marker::Model;

/// A file: its name and its bytes.
#[derive(Drop)]
pub struct MemFile {
    pub name: String,
    pub bytes: Vec<u8>,
}

impl Model for MemFile {
    ghost use Rattle.std.specs.String.{string_bytes};
    ghost use Rattle.cmp_outside.specs.FilesState.{File};

    ghost Value = { File };

    ghost view = { λ f. record { name = string_bytes f.name; bytes = f.bytes.items } };
}

/// A source over files in memory, for tests and for whoever has the bytes already.
#[derive(Drop)]
pub struct MemFiles {
    files: Vec<MemFile>,
    failing: Vec<u64>,
    calls: u64,
    log: FaultCounter,
}

impl Model for MemFiles {
    ghost use Rattle.cmp_outside.specs.FilesState.{FilesState};

    ghost Value = { FilesState };

    ghost view = { λ m. record {
      files = m.files.items;
      failing = m.failing.items;
      calls = m.calls;
      log = m.log;
    } };
}

impl MemFiles {
    /// Keeps these files. The calls whose numbers are listed fail; the first call has the number 1.
    pub fn make(_alloc: Global, files: Vec<MemFile>, failing: Vec<u64>) -> MemFiles
        ensures { result ≡ fresh_files files.items failing.items }
    {
        MemFiles {
            files,
            failing,
            calls: 0,
            log: FaultCounter::new(),
        }
    }
}

impl Source for MemFiles {
    ghost told = { told_of };

    ghost faults = { λ s. s.log.faults };

    ghost last_failed = { λ s. s.log.last_failed };

    /// Fails in a call that is listed and at a name that is not there, and else never.
    ///
    /// Where a copy of the name of a failed read finds no memory, the answer is `Memory`: the call
    /// is counted, and no fault is.
    fn read_file(&mut self, alloc: Global, name: &str, limit: u64) -> Result<Vec<u8>, ReadEnd>
        // The answer is the one that the files and the list determine, or want of memory where that
        // one takes memory.
        ensures answer { IsAnswer (read_answer self.old name.now limit) result }

        // The call is counted, a fault is noted, and nothing else changes.
        ensures after { self.new ≡ after_read self.old name.now result }

        // As every source.
        ensures files { SameFiles (told_of self.old) (told_of self.new) }
        ensures ok { IfOk result (λ v. IfTold (told_of self.old name.now) (λ bytes. v.items ≡ bytes)) }
        ensures within { IfOk result (λ v. vec_len v ≤ limit) }
        ensures too_long { OnTooLong result
            (IfTold (told_of self.old name.now) (λ bytes. limit < length bytes)) }
        ensures failed { OnFailed result (Rose self.old.log.faults self.new.log.faults) }
        ensures failed_name { OnFailed result (self.new.log.last_failed ≡ Some name.now) }
        ensures never_falls { self.old.log.faults ≤ self.new.log.faults }
        ensures count_stays { UnlessFailed result (self.new.log.faults ≡ self.old.log.faults) }
        ensures name_stays { UnlessFailed result (self.new.log.last_failed ≡ self.old.log.last_failed) }
    {
        self.calls = self.calls.saturating_add(1);
        let Some(bytes) = available(&self.files, &self.failing, self.calls, name) else {
            match self.log.note(alloc, name) {
                Ok(()) => return Err(ReadEnd::Failed),
                Err(_) => return Err(ReadEnd::Memory),
            }
        };
        if bytes.len() as u64 > limit {
            return Err(ReadEnd::TooLong);
        }
        match Vec::from_slice(alloc, bytes) {
            Ok(copy) => Ok(copy),
            Err(_) => Err(ReadEnd::Memory),
        }
    }
}

/// The bytes for the call of this number, if it is not to fail.
fn available<'a>(files: &'a [MemFile], failing: &[u64], call: u64, name: &str) -> Option<&'a [u8]>
    ensures { option_copied result ≡ (if list_any (λ n. n == call) failing.now then None else first_named name.now files.now) }
{
    if failing.contains(&call) {
        return None;
    }
    find(files, name)
}

/// The bytes of the first file of this name.
fn find<'a>(files: &'a [MemFile], name: &str) -> Option<&'a [u8]>
    ensures { option_copied result ≡ first_named name.now files.now }
{
    for file in files {
        if file.name.as_str() == name {
            return Some(file.bytes.as_slice());
        }
    }
    None
}
