//! Values with several owners: a type that many names have, a routine that many calls name.

ghost use Rattle.std.specs.Prelude.{◌≡◌, IfOk};

use murphi_ast::text::Memory;
use std::alloc::Global;
use std::marker::Model;
use std::rc::Rc;

/// A value with several owners. Contracts see the value. Another owner takes no copy of it.
#[derive(Drop)]
pub struct Shared<T> {
    held: Rc<T>,
}

impl<T> Model for Shared<T> {
    ghost Value = { T };

    ghost coded = { T.code };

    ghost view = { λ s. s.held.value };
}

impl<T> Shared<T> {
    /// The value.
    pub fn get(&self) -> &T
        ensures { result.now ≡ self.now }
    {
        &self.held
    }
}

impl<T: Drop> Shared<T> {
    /// A value with one owner.
    pub fn new(alloc: Global, value: T) -> Result<Shared<T>, Memory>
        ensures { IfOk result (λ s. s ≡ value) }
    {
        let held = Rc::new(alloc, value)?;
        Ok(Shared { held })
    }

    /// One more owner.
    pub fn share(&self) -> Result<Shared<T>, Memory>
        ensures { IfOk result (λ s. s ≡ self.now) }
    {
        let held = self.held.clone()?;
        Ok(Shared { held })
    }

    /// The value, where this is its only owner.
    pub fn into_inner(self) -> Result<T, Memory>
        ensures { IfOk result (λ value. value ≡ self) }
    {
        let Shared { held } = self;
        match Rc::try_unwrap(held) {
            Ok(value) => Ok(value),
            Err(_others) => Err(Memory),
        }
    }
}
