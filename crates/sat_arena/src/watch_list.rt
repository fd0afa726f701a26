//! The clauses that are watched at one literal.

ghost use Rattle.std.specs.Prelude.{◌≡◌, ◌<◌, List, [], ◌∷◌, ◌++◌, length, map, replicate, All, IfOk, OnOk, OnErr};
ghost use Rattle.std.specs.List.{swap_remove};

use crate::compacting::rename;
use crate::id::ClauseId;
use crate::slot::Slot;
use clause_core::Memory;
use std::alloc::Global;
use std::marker::Model;

/// The ids of the clauses that are watched at one literal, in no order. Contracts see the list.
#[derive(Debug, Drop)]
pub struct WatchList {
    ids: Vec<ClauseId>,
}

impl Model for WatchList {
    ghost use Rattle.std.specs.Prelude.{List};
    ghost use Rattle.sat_arena.specs.declared.id.ClauseId.{ClauseId};

    ghost Value = { List ClauseId };

    ghost view = { λ w. w.ids.items };
}

impl WatchList {
    ghost use Rattle.sat_arena.specs.declared.id.ClauseId.{ClauseId as Id};
    ghost use Rattle.sat_arena.specs.Linking.{moved_id, moved_of};

    /// The empty list. It takes no memory.
    pub fn make(alloc: Global) -> WatchList
        ensures { result ≡ [] }
    {
        WatchList {
            ids: Vec::new(alloc),
        }
    }

    /// The ids.
    pub fn items(&self) -> &[ClauseId]
        ensures { result.now ≡ self.now }
    {
        self.ids.as_slice()
    }

    /// Adds an id at the end.
    pub fn push(&mut self, id: ClauseId) -> Result<(), Memory>
        ensures ok { OnOk result (self.new ≡ self.old ++ id ∷ []) }
        ensures err { OnErr result (self.new ≡ self.old) }
    {
        self.ids.push(id)?;
        Ok(())
    }

    /// Takes the id at a position out. The last one takes its position. It takes no memory.
    pub fn swap_remove(&mut self, at: usize)
        requires { at < length self.old }
        ensures { self.new ≡ swap_remove self.old at (record { place = 0 }) }
    {
        self.ids.swap_remove(at);
    }

    /// Takes the last id out.
    pub fn pop(&mut self)
        ensures { (ids : List Id) (id : Id) → self.old ≡ ids ++ id ∷ [] → self.new ≡ ids }
    {
        let _last = self.ids.pop();
    }

    /// Renames the ids by the new places of the slots.
    pub fn rename(&mut self, slots: &[Slot])
        requires { All (λ id. id.place < length slots.now) self.old }
        ensures { self.new ≡ map (moved_id (moved_of slots.now)) self.old }
    {
        rename(self.ids.as_mut_slice(), slots);
    }
}

/// This many empty lists.
pub fn empty_lists(alloc: Global, count: usize) -> Result<Vec<WatchList>, Memory>
    ensures { IfOk result (λ w. w.items ≡ replicate count []) }
{
    let mut lists = Vec::with_capacity(alloc, count)?;
    for done in 0..count {
        let list = WatchList::make(alloc);
        lists.push(list)?;
    }
    Ok(lists)
}
