//! The names of a text in the order of their declarations, each found by hash.

ghost use Rattle.std.specs.Prelude.{◌≡◌, [], ◌∷◌, ◌++◌, IfOk, OnOk};
ghost use Rattle.murphi_types.specs.Scopes.{earliest};
ghost use Rattle.murphi_types.specs.Table.{what_at};

use crate::scope::{Entry, Meaning};
use indexmap::IndexMap;
use murphi_ast::text::{Memory, Text};
use sqlite_items::Items;
use std::alloc::Global;
use std::marker::Model;

/// Entries in the order of their declarations. Contracts see their list. Of two entries of one name the
/// first is found.
#[derive(Drop)]
pub struct Names {
    entries: Items<Entry>,
    first: IndexMap<Vec<u8>, usize>,
}

impl Model for Names {
    ghost use Rattle.std.specs.Prelude.{List};
    ghost use Rattle.std.specs.Coded.{codes};
    ghost use Rattle.murphi_types.specs.declared.scope.Entry.{Entry};
    ghost use Rattle.murphi_types.specs.contracts.scope.Entry as entry;

    ghost Value = { List Entry };

    ghost coded = { Prim.hlevel (codes, entry.the_row.coded) };

    ghost use Rattle.murphi_types.specs.Table.{IsTable};

    ghost view = { λ n. n.entries };

    ghost invariant = { λ n. IsTable n.entries n.first.entries };
}

/// The bytes of a name.
fn bytes_of(alloc: Global, name: &Text) -> Result<Vec<u8>, Memory>
    ensures { IfOk result (λ v. v.items ≡ name.now) }
{
    let bytes = name.bytes().to_vec(alloc)?;
    Ok(bytes)
}

/// What the entry of this number says.
fn what_at(entries: &[Entry], at: usize) -> Result<Option<Meaning>, Memory>
    ensures { IfOk result (λ o. o ≡ what_at entries.now at) }
{
    if at < entries.len() {
        let found = entries[at].what.share()?;
        return Ok(Some(found));
    }
    Ok(None)
}

impl Names {
    /// No names.
    pub fn new(alloc: Global) -> Names
        ensures { result ≡ [] }
    {
        Names {
            entries: Items::new(alloc),
            first: IndexMap::new(alloc),
        }
    }

    /// The entries, in order.
    pub fn as_slice(&self) -> &[Entry]
        ensures { result.now ≡ self.now }
    {
        self.entries.as_slice()
    }

    /// What the first entry of a name says.
    pub fn look(&self, name: &Text) -> Result<Option<Meaning>, Memory>
        ensures { IfOk result (λ o. o ≡ earliest self.now name.now) }
    {
        match self.first.get(name.bytes()) {
            None => Ok(None),
            Some(at) => {
                let found = what_at(self.entries.as_slice(), *at)?;
                Ok(found)
            }
        }
    }

    /// Declares one more name.
    pub fn push(&mut self, alloc: Global, entry: Entry) -> Result<(), Memory>
        ensures { OnOk result (self.new ≡ self.old ++ entry ∷ []) }
    {
        if self.first.contains_key(entry.name.bytes()) {
            self.entries.push(entry)?;
            return Ok(());
        }
        let name = bytes_of(alloc, &entry.name)?;
        let at = self.entries.len();
        self.entries.push(entry)?;
        match self.first.insert(name, at) {
            Ok(_) => Ok(()),
            Err(_) => {
                let _last = self.entries.pop();
                Err(Memory)
            }
        }
    }
}
