//! Bytes in memory, whose writes fail on demand.
ghost use Rattle.std.specs.Prelude.{◌≡◌, ℕ, ◌≤◌, List, Option, Some, is_ok, IfOk, OnOk, OnErr, vec_capacity, vec_len};
ghost use Rattle.cmp_outside.specs.Faults.{Rose};
ghost use Rattle.cmp_outside.specs.Sink.{Gains, GainsPrefix};
ghost use Rattle.cmp_outside.specs.SinkState.{SinkState, fresh_sink, takes, after_write};

use crate::sink::{Sink, WriteFailed};
use std::alloc::{AllocError, Global};
use std::marker::Model;

/// Want of memory.
#[derive(Debug, Drop)]
pub struct Memory;

impl From<AllocError> for Memory {
    fn from(_error: AllocError) -> Memory {
        Memory
    }
}

/// A sink that keeps what is written to it, up to the room that it was made with.
#[derive(Drop)]
pub struct MemSink {
    written: Vec<u8>,
    room: usize,
    failing: Vec<u64>,
    calls: u64,
    faults: u64,
}

impl Model for MemSink {
    ghost use Rattle.std.specs.Prelude.{◌≡◌, ◌≤◌, vec_capacity, vec_len};
    ghost use Rattle.cmp_outside.specs.SinkState.{SinkState};

    ghost Value = { SinkState };

    ghost view = { λ m. record {
      written = m.written.items;
      room = m.room;
      failing = m.failing.items;
      calls = m.calls;
      faults = m.faults;
    } };

    ghost invariant = { λ m. (vec_len m.written ≤ m.room) × (m.room ≤ vec_capacity m.written) };
}

impl MemSink {
    /// Reserves `room` bytes, so that no write wants memory. The calls whose numbers are listed
    /// fail; the first call has the number 1.
    pub fn make(alloc: Global, room: usize, failing: Vec<u64>) -> Result<MemSink, Memory>
        ensures { IfOk result (λ sink. sink ≡ fresh_sink room failing.items) }
    {
        let written = Vec::with_capacity(alloc, room)?;
        Ok(MemSink {
            written,
            room,
            failing,
            calls: 0,
            faults: 0,
        })
    }

    /// All that was written.
    pub fn bytes(&self) -> &[u8]
        ensures { result.now ≡ self.now.written }
    {
        self.written.as_slice()
    }
}

impl Sink for MemSink {
    ghost written = { λ s. Some s.written };

    ghost faults = { λ s. s.faults };

    /// Fails in a call that is listed and at a piece past the room, and else never. A write that
    /// fails appends nothing. No write takes memory.
    fn write(&mut self, piece: &[u8]) -> Result<(), WriteFailed>
        // The answer is the one that the room and the list determine.
        ensures answer { is_ok result ≡ takes self.old piece.now }

        // The call is counted, the piece appended or a fault counted, and nothing else changes.
        ensures after { self.new ≡ after_write self.old piece.now }

        // As every sink.
        ensures ok { OnOk result (Gains (Some self.old.written) (Some self.new.written) piece.now) }
        ensures count_stays { OnOk result (self.new.faults ≡ self.old.faults) }
        ensures failed { OnErr result (Rose self.old.faults self.new.faults) }
        ensures failed_prefix { OnErr result
            (GainsPrefix (Some self.old.written) (Some self.new.written) piece.now) }
        ensures never_falls { self.old.faults ≤ self.new.faults }
    {
        self.calls = self.calls.saturating_add(1);
        if self.failing.contains(&self.calls) || piece.len() > self.room - self.written.len() {
            self.faults = self.faults.saturating_add(1);
            return Err(WriteFailed);
        }
        match self.written.extend_from_slice(piece) {
            Ok(()) => Ok(()),
            Err(_) => unreachable!(),
        }
    }
}
