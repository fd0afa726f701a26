//! Where files are read: the trait `Source` and the ends of a read.
ghost use Rattle.std.specs.Prelude.{◌≡◌, ℕ, ◌≤◌, ◌<◌, List, Option, Some, length, vec_len, IfOk};
ghost use Rattle.cmp_outside.specs.Faults.{Rose};
ghost use Rattle.cmp_outside.specs.Source.{SameFiles, IfTold, OnFailed, OnTooLong, UnlessFailed};

use std::alloc::Global;
use thiserror::Error;

/// Why a read gave no bytes.
#[derive(Debug, Drop, Error)]
pub enum ReadEnd {
    /// The file could not be read: a fault, which the source counts.
    #[error("the file could not be read")]
    Failed,
    /// The file has more bytes than the reader allows.
    #[error("the file is too long")]
    TooLong,
    /// There was no memory for the bytes, or for keeping the name of a failed read.
    #[error("out of memory")]
    Memory,
}

/// Files by name.
///
/// A source may *tell* its files: of a name it tells the bytes of that file, or nothing. A source
/// that tells nothing, as one over real files, promises nothing of the bytes that it gives. A source
/// counts the reads that failed, and keeps the name that the last of them asked for.
pub trait Source {
    /// What the source tells of each name.
    ghost told: { Self → List ℕ → Option (List ℕ) };

    /// How many reads failed, up to the greatest u64.
    ghost faults: { Self → ℕ };

    /// The name of the last read that failed.
    ghost last_failed: { Self → Option (List ℕ) };

    /// Reads the whole file of this name, if it has at most `limit` bytes.
    fn read_file(&mut self, alloc: Global, name: &str, limit: u64) -> Result<Vec<u8>, ReadEnd>
        // No call changes the files.
        ensures files { SameFiles (told self.old) (told self.new) }

        // Ok gives the file's bytes, and never more than `limit` of them.
        ensures ok { IfOk result (λ v. IfTold (told self.old name.now) (λ bytes. v.items ≡ bytes)) }
        ensures within { IfOk result (λ v. vec_len v ≤ limit) }

        // Only a longer file is too long.
        ensures too_long { OnTooLong result
            (IfTold (told self.old name.now) (λ bytes. limit < length bytes)) }

        // A read that failed is counted, and its name kept.
        ensures failed { OnFailed result (Rose (faults self.old) (faults self.new)) }
        ensures failed_name { OnFailed result (last_failed self.new ≡ Some name.now) }

        // No other answer changes the count or the name.
        ensures never_falls { faults self.old ≤ faults self.new }
        ensures count_stays { UnlessFailed result (faults self.new ≡ faults self.old) }
        ensures name_stays { UnlessFailed result (last_failed self.new ≡ last_failed self.old) };
}
