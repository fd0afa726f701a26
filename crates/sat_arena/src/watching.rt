//! Slots and watch lists kept in step.

ghost use Rattle.std.specs.Prelude.{◌≡◌, ◌<◌, ℕ, length, OnOk, OnErr};
ghost use Rattle.sat_arena.specs.Linking.{lits_of, stands_at, IsLinked, IsLinkedBut, added};

use crate::id::ClauseId;
use crate::slot::Slot;
use crate::watch_list::WatchList;
use clause_core::{Lit, Memory};

/// Takes the id at a position out of the watch list of a literal, where no clause says that it
/// stands. The clause that gets its position is told so.
pub fn drop_watch(slots: &mut [Slot], ids: &mut WatchList, l: Lit, at: usize)
    requires within { at < length ids.old }
    requires linked { IsLinkedBut (stands_at slots.old l.code) ids.old at }
    ensures linked { IsLinked (stands_at slots.new l.code) ids.new }
    ensures others { (c p : ℕ) → (l.code ≡ c → ⊥) → stands_at slots.new c p ≡ stands_at slots.old c p }
    ensures lits { lits_of slots.new ≡ lits_of slots.old }
{
    ids.swap_remove(at);
    let left = ids.items();
    if at < left.len() {
        let place = left[at].place as usize;
        slots[place].set_position(l, at);
    }
}

/// Adds an id to the watch list of a literal.
pub fn add_watch(watched: &mut [WatchList], l: Lit, id: ClauseId) -> Result<(), Memory>
    requires { l.code < length watched.old }
    ensures ok { OnOk result (watched.new ≡ added watched.old l.code id) }
    ensures err { OnErr result (watched.new ≡ watched.old) }
{
    watched[l.code as usize].push(id)
}

/// Adds an id to the watch lists of two literals, or to none of them.
pub fn add_watches(
    watched: &mut [WatchList],
    first: Lit,
    second: Lit,
    id: ClauseId,
) -> Result<(), Memory>
    requires first { first.code < length watched.old }
    requires second { second.code < length watched.old }
    ensures ok { OnOk result (watched.new ≡ added (added watched.old first.code id) second.code id) }
    ensures err { OnErr result (watched.new ≡ watched.old) }
{
    add_watch(watched, first, id)?;
    match add_watch(watched, second, id) {
        Ok(()) => Ok(()),
        Err(_) => {
            watched[first.code as usize].pop();
            Err(Memory)
        }
    }
}
