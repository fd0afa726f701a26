//! The names in scope.

ghost use Rattle.std.specs.Prelude.{◌≡◌, List, ℕ, Option, IfOk, OnOk};
ghost use Rattle.std.specs.List.{list_any};
ghost use Rattle.murphi_typed.specs.declared.types.Simple.{Simple};
ghost use Rattle.murphi_types.specs.declared.scope.Scope.{Scope};
ghost use Rattle.murphi_types.specs.Scopes.{latest, looked, binding, is_routine_name};
ghost use Rattle.type_parts.specs.Contexts.{in_scope};

use murphi_ast::text::{Memory, Text};
use murphi_typed::types::Simple;
use murphi_types::scope::{Entry, Known, Meaning, Scope};
use std::alloc::Global;

/// Where a part stands, and what the text has declared so far.
#[derive(Drop)]
pub struct Context {
    pub scope: Scope,
    pub known: Known,
}

/// What the last entry of a name says.
fn latest(entries: &[Entry], name: &Text) -> Result<Option<Meaning>, Memory>
    ensures { IfOk result (λ o. o ≡ latest entries.now name.now) }
{
    let mut left = entries.len();
    while left > 0 {
        left -= 1;
        let one = &entries[left];
        if one.name.bytes() == name.bytes() {
            let found = one.what.share()?;
            return Ok(Some(found));
        }
    }
    Ok(None)
}

impl Context {
    /// What a name stands for: the innermost declaration of it, else the first of the whole text.
    pub fn look(&self, name: &Text) -> Result<Option<Meaning>, Memory>
        ensures { IfOk result (λ o. o ≡ looked self.now.scope self.now.known name.now) }
    {
        let inner = latest(self.scope.inner.as_slice(), name)?;
        match inner {
            Some(found) => Ok(Some(found)),
            None => {
                let found = self.known.names.look(name)?;
                Ok(found)
            }
        }
    }

    /// Whether some routine of the text has a name.
    pub fn is_routine_name(&self, name: &Text) -> bool
        ensures { result ≡ is_routine_name self.now.scope name.now }
    {
        for one in self.scope.routines.as_slice() {
            if one.bytes() == name.bytes() {
                return true;
            }
        }
        false
    }

    /// Brings a bound variable into scope.
    pub fn enter(&mut self, alloc: Global, name: &Text, over: Option<Simple>) -> Result<(), Memory>
        ensures { OnOk result (self.new ≡ in_scope self.old (binding self.old.scope name.now over)) }
    {
        let bound = self.scope.bound.checked_add(1).ok_or(Memory)?;
        let name = name.copy(alloc)?;
        let what = match over {
            Some(over) => Meaning::Bound {
                number: self.scope.bound,
                over,
            },
            None => Meaning::Refused,
        };
        self.scope.inner.push(Entry { name, what })?;
        self.scope.bound = bound;
        Ok(())
    }

    /// Takes the last name, a bound variable, out of scope.
    pub fn leave(&mut self, bound: u32)
        ensures { (s : Scope) (name : List ℕ) (over : Option Simple) → self.old.scope ≡ binding s name over → bound ≡ s.bound → self.new ≡ in_scope self.old s }
    {
        let _gone = self.scope.inner.pop();
        self.scope.bound = bound;
    }
}
