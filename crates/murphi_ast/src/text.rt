//! Bytes that the program keeps, and the want of memory that keeping them may meet.

ghost use Rattle.std.specs.Prelude.{◌≡◌, IfOk};

use std::alloc::{AllocError, AllocFailed, Global};
use std::marker::Model;

/// Want of memory: the allocator gave none, or a count would pass its range.
#[derive(Debug, Drop)]
pub struct Memory;

impl From<AllocError> for Memory {
    fn from(_error: AllocError) -> Memory {
        Memory
    }
}

impl<T: Drop> From<AllocFailed<T>> for Memory {
    fn from(_error: AllocFailed<T>) -> Memory {
        Memory
    }
}

/// A list of bytes: a name, a title, the spelling of a token. Contracts see the list.
#[derive(Debug, Drop)]
pub struct Text {
    held: Vec<u8>,
}

impl Model for Text {
    ghost use Rattle.std.specs.Prelude.{List, ℕ};
    ghost use Rattle.std.specs.Coded.{coded_list, coded_ℕ};

    ghost Value = { List ℕ };

    ghost coded = { coded_list coded_ℕ };

    ghost view = { λ t. t.held.items };
}

impl Text {
    /// The text of these bytes, in this order.
    pub fn make(alloc: Global, bytes: &[u8]) -> Result<Text, Memory>
        ensures { IfOk result (λ t. t ≡ bytes.now) }
    {
        let held = bytes.to_vec(alloc)?;
        Ok(Text { held })
    }

    /// The bytes of the text. It takes no memory.
    pub fn bytes(&self) -> &[u8]
        ensures { result.now ≡ self.now }
    {
        self.held.as_slice()
    }

    /// Another text of the same bytes.
    pub fn copy(&self, alloc: Global) -> Result<Text, Memory>
        ensures { IfOk result (λ t. t ≡ self.now) }
    {
        Text::make(alloc, self.bytes())
    }
}
