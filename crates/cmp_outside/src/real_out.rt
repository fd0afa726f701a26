//! Standard output.
ghost use Rattle.std.specs.Prelude.{◌≡◌, ℕ, None};

use crate::sink::{Sink, WriteFailed};
use std::io;
use std::io::{ErrorKind, Write};
use std::marker::Model;

/// Standard output. It tells nothing of what was written; clauses see it as the count of its
/// faults.
#[derive(Drop)]
pub struct RealOut<'a, R: Print> {
    rt: &'a R,
    faults: u64,
}

impl<'a, R: Print> Model for RealOut<'a, R> {
    ghost Value = { ℕ };

    ghost view = { λ o. o.faults };
}

impl<'a, R: Print> RealOut<'a, R> {
    /// Writes through this runtime.
    pub fn make(rt: &'a R) -> RealOut<'a, R>
        ensures { result ≡ 0 }
    {
        RealOut { rt, faults: 0 }
    }
}

impl<'a, R: Print> Sink for RealOut<'a, R> {
    ghost written = { λ _. None };

    ghost faults = { λ faults. faults };

    /// Writes until the whole piece is taken. A write that fails, or that takes nothing, is a fault.
    fn write(&mut self, piece: &[u8]) -> Result<(), WriteFailed> {
        if write_whole(self.rt, piece) {
            Ok(())
        } else {
            self.faults = self.faults.saturating_add(1);
            Err(WriteFailed)
        }
    }
}

/// Writes until all bytes are taken, and answers whether they were.
///
/// A write that a signal cut short is tried again.
fn write_whole<R: Print>(rt: &R, piece: &[u8]) -> bool {
    let mut out = io::writer(rt);
    let mut rest = piece;
    for _ in 0..u64::MAX {
        if rest.is_empty() {
            return true;
        }
        match out.write(rest) {
            Ok(0) => return false,
            Ok(count) => rest = &rest[count..],
            Err(e) if e.kind() == ErrorKind::Interrupted => {}
            Err(_) => return false,
        }
    }
    false
}
