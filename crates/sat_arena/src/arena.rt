//! The arena: clauses by id, and the clauses that are watched at a literal.

ghost use Rattle.std.specs.Prelude.{◌≡◌, ◌↔◌, ◌<◌, ◌≤◌, if◌then◌else◌, [], ◌∷◌, ◌++◌, length, map, All, IsTrue, IfOk, OnOk, OnErr};
ghost use Rattle.clause_core.specs.Literal.{variable_of};
ghost use Rattle.clause_core.specs.Formula.{IsInRange};
ghost use Rattle.sat_arena.specs.Live.{IsLive, IdsDiffer, literals, is_watched, times_listed, without, with_swapped, clauses_of, renamed};
ghost use Rattle.clause_core.specs.Members.{NoneTwice};

use crate::compacting::{drop_empty, number, rename, rename_all};
use crate::id::ClauseId;
use crate::slot::Slot;
use crate::watch_list::{WatchList, empty_lists};
use crate::watching::{add_watches, drop_watch};
use clause_core::{Clause, Lit, MOST_VARIABLES, Memory};
use std::alloc::Global;
use std::marker::Model;

/// A store of clauses over a number of variables, each watched at its first two literals. Contracts
/// see a `Store`: the number of variables, and the live clauses in the order of adding. A live
/// clause was added and not removed since; it has at least two literals, and none twice.
///
/// `add`, `remove` and `move_watch` take time linear in the clause at most, `compact` time linear
/// in all that is kept and held. The slot of a removed clause stays empty until `compact`.
#[derive(Debug, Drop)]
pub struct Arena {
    alloc: Global,
    variables: u32,
    slots: Vec<Slot>,
    watched: Vec<WatchList>,
}

impl Model for Arena {
    ghost use Rattle.sat_arena.specs.Live.{Store};
    ghost use Rattle.sat_arena.specs.Linking.{lits_of, live_from, IsArena};

    ghost Value = { Store };

    ghost view = { λ a. record { variables = a.variables; live = live_from 0 (lits_of a.slots.items) } };

    ghost invariant = { λ a. IsArena a.variables a.slots.items a.watched.items };
}

impl Arena {
    ghost use Rattle.sat_arena.specs.declared.id.ClauseId.{ClauseId as Id};
    ghost use Rattle.sat_arena.specs.Live.{Entry};

    /// The arena over this many variables that has no clauses. More than 2^31 variables are answered
    /// as want of memory.
    pub fn make(alloc: Global, variables: u32) -> Result<Arena, Memory>
        ensures variables { IfOk result (λ a. a.variables ≡ variables) }
        ensures live { IfOk result (λ a. a.live ≡ []) }
    {
        if variables > MOST_VARIABLES {
            return Err(Memory);
        }
        let watched = empty_lists(alloc, 2 * variables as usize)?;
        Ok(Arena {
            alloc,
            variables,
            slots: Vec::new(alloc),
            watched,
        })
    }

    /// How many variables the arena is over. It takes no memory.
    pub fn variables(&self) -> u32
        ensures value { result ≡ self.now.variables }
        ensures differ { IdsDiffer self.now.live }
    {
        self.variables
    }

    /// Whether an id names a live clause. It takes no memory.
    pub fn is_live(&self, id: ClauseId) -> bool
        ensures { IsTrue result ↔ IsLive self.now.live id }
    {
        let place = id.place as usize;
        if place < self.slots.len() {
            !self.slots[place].lits.is_empty()
        } else {
            false
        }
    }

    /// Adds a clause, watched at its first two literals, and gives its id. A clause whose place
    /// would pass `u32` is answered as want of memory.
    pub fn add(&mut self, c: &Clause) -> Result<ClauseId, Memory>
        requires two { 2 ≤ length c.now }
        requires once { NoneTwice c.now }
        requires range { IsInRange self.old.variables c.now }
        ensures variables { self.new.variables ≡ self.old.variables }
        ensures ok { IfOk result (λ id. self.new.live
            ≡ self.old.live ++ record { place = id.place; lits = c.now } ∷ []) }
        ensures fresh { IfOk result (λ id. IsLive self.old.live id → ⊥) }
        ensures err { OnErr result (self.new.live ≡ self.old.live) }
        ensures differ { IdsDiffer self.new.live }
    {
        if self.slots.len() > u32::MAX as usize {
            return Err(Memory);
        }
        let id = ClauseId {
            place: self.slots.len() as u32,
        };
        let lits = Vec::from_slice(self.alloc, c.items())?;
        let first = lits[0];
        let second = lits[1];
        self.slots.reserve(1)?;
        let slot = Slot {
            lits,
            first: self.watched[first.code as usize].items().len(),
            second: self.watched[second.code as usize].items().len(),
            moved: 0,
        };
        add_watches(self.watched.as_mut_slice(), first, second, id)?;
        self.slots.push_reserved(slot);
        Ok(id)
    }

    /// Takes a clause out. The others, their order and their ids stay. It takes no memory.
    pub fn remove(&mut self, id: ClauseId)
        requires { IsLive self.old.live id }
        ensures variables { self.new.variables ≡ self.old.variables }
        ensures live { self.new.live ≡ without self.old.live id }
        ensures differ { IdsDiffer self.new.live }
    {
        let slot = &mut self.slots[id.place as usize];
        let first = slot.lits[0];
        let second = slot.lits[1];
        let first_at = slot.first;
        let second_at = slot.second;
        slot.lits.clear();
        let slots = self.slots.as_mut_slice();
        drop_watch(
            slots,
            &mut self.watched[first.code as usize],
            first,
            first_at,
        );
        drop_watch(
            slots,
            &mut self.watched[second.code as usize],
            second,
            second_at,
        );
    }

    /// Gives the live clauses new ids without gaps, and renames the held ones, so that each still
    /// names its clause. The clauses and their order stay. It takes no memory.
    pub fn compact(&mut self, held: &mut Vec<ClauseId>)
        requires { All (IsLive self.old.live) held.old.items }
        ensures variables { self.new.variables ≡ self.old.variables }
        ensures clauses { clauses_of self.new.live ≡ clauses_of self.old.live }
        ensures held { held.new.items ≡ map (renamed self.old.live self.new.live) held.old.items }
        ensures differ { IdsDiffer self.new.live }
        // Each held id is live, and names at its new place the literals that it named before.
        ensures live { All (IsLive self.new.live) held.new.items }
        ensures named { map (literals self.new.live) held.new.items
            ≡ map (literals self.old.live) held.old.items }
    {
        number(self.slots.as_mut_slice());
        let slots = self.slots.as_slice();
        rename_all(self.watched.as_mut_slice(), slots);
        rename(held.as_mut_slice(), slots);
        drop_empty(&mut self.slots);
    }

    /// The literals of a live clause. It takes no memory.
    pub fn clause(&self, id: ClauseId) -> &[Lit]
        requires { IsLive self.now.live id }
        ensures value { result.now ≡ literals self.now.live id }
        ensures two { 2 ≤ length result.now }
        ensures once { NoneTwice result.now }
        ensures range { IsInRange self.now.variables result.now }
    {
        self.slots[id.place as usize].lits.as_slice()
    }

    /// The clauses that are watched at a literal: the live ones of which it is the first or the
    /// second literal, each once, in no order. It takes no memory.
    pub fn watches(&self, l: Lit) -> &[ClauseId]
        requires { variable_of l < self.now.variables }
        ensures once { (id : Id)
            → times_listed id result.now ≡ (if is_watched self.now.live id l then 1 else 0) }
        ensures live { All (IsLive self.now.live) result.now }
        ensures watched { All (λ id. IsTrue (is_watched self.now.live id l)) result.now }
    {
        self.watched[l.code as usize].items()
    }

    /// Swaps the watched literal of a live clause that stands at index `from` with the one at index
    /// `to`, which is watched in its stead.
    pub fn move_watch(&mut self, id: ClauseId, from: usize, to: usize) -> Result<(), Memory>
        requires live { IsLive self.old.live id }
        requires from { from < 2 }
        requires to { 2 ≤ to }
        requires within { to < length (literals self.old.live id) }
        ensures variables { self.new.variables ≡ self.old.variables }
        ensures ok { OnOk result (self.new.live ≡ with_swapped self.old.live id from to) }
        ensures err { OnErr result (self.new.live ≡ self.old.live) }
        ensures differ { IdsDiffer self.new.live }
    {
        let slot = &self.slots[id.place as usize];
        let old = slot.lits[from];
        let new = slot.lits[to];
        let old_at = slot.position_of(from);
        let new_at = self.watched[new.code as usize].items().len();
        self.watched[new.code as usize].push(id)?;
        self.slots[id.place as usize].move_watch(from, to, new_at);
        let slots = self.slots.as_mut_slice();
        drop_watch(slots, &mut self.watched[old.code as usize], old, old_at);
        Ok(())
    }
}
