//! Sets of values that a term may have.

#![tactic(auto, using(crate::proofs::SetLemmas::sets))]

ghost use Rattle.std.specs.Prelude.{◌≡◌, Bool, ◌||◌, [], OnOk, IsTrue};
ghost use Rattle.std.specs.List.{list_any};
ghost use Rattle.other_abstract.specs.declared.value.AbsValue.{AbsValue};
ghost use Rattle.other_abstract.specs.Windows.{same_value, each_once};
ghost use Rattle.other_abstract.specs.Tests.{passes};

use crate::value::AbsValue;
use std::alloc::Global;
use std::marker::Model;
use term_core::text::Memory;

/// Values, each once. Contracts see the list of them.
#[derive(Drop)]
pub struct ValueSet {
    values: Vec<AbsValue>,
}

impl Model for ValueSet {
    ghost use Rattle.std.specs.Prelude.{List, IsTrue};
    ghost use Rattle.other_abstract.specs.declared.value.AbsValue.{AbsValue};
    ghost use Rattle.other_abstract.specs.Windows.{each_once};

    ghost Value = { List AbsValue };

    ghost view = { λ s. s.values.items };

    ghost invariant = { λ s. IsTrue (each_once s.values.items) };
}

impl ValueSet {
    /// No values.
    pub fn make(alloc: Global) -> ValueSet
        ensures { result ≡ [] }
    {
        ValueSet {
            values: Vec::new(alloc),
        }
    }

    /// The values.
    pub fn values(&self) -> &[AbsValue]
        ensures values { result.now ≡ self.now }
        ensures once { IsTrue (each_once result.now) }
    {
        self.values.as_slice()
    }

    /// Whether a value is one of these.
    pub fn has(&self, value: AbsValue) -> bool
        ensures { result ≡ list_any (same_value value) self.now }
    {
        for one in &self.values {
            if value.is_same(*one) {
                return true;
            }
        }
        false
    }

    /// Adds a value, if it is not one of these.
    pub fn add(&mut self, value: AbsValue) -> Result<(), Memory>
        ensures { OnOk result ((p : AbsValue → Bool) → list_any p self.new ≡ (list_any p self.old || p value)) }
    {
        if self.has(value) {
            return Ok(());
        }
        self.values.push(value)?;
        Ok(())
    }

    /// Whether one of the values is true, or whether one is anything else.
    pub fn may_be(&self, wanted: bool) -> bool
        ensures { result ≡ list_any (passes wanted) self.now }
    {
        for value in &self.values {
            if value.is_true() == wanted {
                return true;
            }
        }
        false
    }
}
