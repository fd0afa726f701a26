//! The faults of a source: their count, and the name that the last of them asked for.
ghost use Rattle.std.specs.Prelude.{◌≡◌, ◌≤◌, List, ℕ, OnOk, OnErr};
ghost use Rattle.cmp_outside.specs.Faults.{FaultLog, no_faults, with_fault};

use std::alloc::{AllocError, Global};
use std::marker::Model;

/// How many reads failed, up to the greatest u64, and the name of the last of them.
#[derive(Drop)]
pub(crate) struct FaultCounter {
    faults: u64,
    last_failed: Option<String>,
}

impl Model for FaultCounter {
    ghost use Rattle.std.specs.String.{string_bytes};
    ghost use Rattle.std.specs.Option.{option_map};
    ghost use Rattle.cmp_outside.specs.Faults.{FaultLog};

    ghost Value = { FaultLog };

    ghost view = { λ c. record { faults = c.faults; last_failed = option_map string_bytes c.last_failed } };
}

impl FaultCounter {
    pub(crate) fn new() -> FaultCounter
        ensures { result ≡ no_faults }
    {
        FaultCounter {
            faults: 0,
            last_failed: None,
        }
    }

    /// Counts a fault and keeps the name. With no memory for a copy of it, nothing changes.
    pub(crate) fn note(&mut self, alloc: Global, name: &str) -> Result<(), AllocError>
        ensures ok { OnOk result (self.new ≡ with_fault self.old name.now) }
        ensures err { OnErr result (self.new ≡ self.old) }
        ensures never_falls { self.old.faults ≤ self.new.faults }
    {
        let copy = String::from_str(alloc, name)?;
        self.last_failed = Some(copy);
        self.faults = self.faults.saturating_add(1);
        Ok(())
    }
}
