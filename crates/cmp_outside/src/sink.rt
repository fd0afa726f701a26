//! Where bytes are written: the trait `Sink` and the fault of a write.
ghost use Rattle.std.specs.Prelude.{◌≡◌, ℕ, ◌≤◌, List, Option, OnOk, OnErr};
ghost use Rattle.cmp_outside.specs.Faults.{Rose};
ghost use Rattle.cmp_outside.specs.Sink.{Gains, GainsPrefix};

use thiserror::Error;

/// The sink did not take the whole piece: a fault, which the sink counts.
#[derive(Debug, Drop, Error)]
#[error("the output could not be written")]
pub struct WriteFailed;

/// A place for bytes, one piece after another.
///
/// A sink may *tell* what was written to it so far. One that does not, as standard output, promises
/// nothing of where the bytes go. A sink counts the writes that failed.
pub trait Sink {
    /// All bytes written so far, in order, where the sink tells them.
    ghost written: { Self → Option (List ℕ) };

    /// How many writes failed, up to the greatest u64.
    ghost faults: { Self → ℕ };

    /// Writes the piece, after all that was written before.
    fn write(&mut self, piece: &[u8]) -> Result<(), WriteFailed>
        // Ok appends the piece and is no fault.
        ensures ok { OnOk result (Gains (written self.old) (written self.new) piece.now) }
        ensures count_stays { OnOk result (faults self.new ≡ faults self.old) }

        // A write that failed is counted, and appends a prefix of the piece, which may be empty.
        ensures failed { OnErr result (Rose (faults self.old) (faults self.new)) }
        ensures failed_prefix { OnErr result
            (GainsPrefix (written self.old) (written self.new) piece.now) }

        ensures never_falls { faults self.old ≤ faults self.new };
}
