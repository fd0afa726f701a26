//! New places for clauses, and ids after them.

ghost use Rattle.std.specs.Prelude.{◌≡◌, ◌^◌, ◌<◌, ◌≤◌, length, map, filter, All};
ghost use Rattle.sat_arena.specs.Linking.{next_place, numbered, moved_of, moved_id, holds_clause};

use crate::id::ClauseId;
use crate::slot::Slot;
use crate::watch_list::WatchList;

/// Says in a slot which place its clause gets, and gives the place that the next one gets.
fn number_slot(slot: &mut Slot, place: usize) -> usize
    requires { place < 2 ^ 32 }
    ensures slot { slot.new ≡ record slot.old { moved = place } }
    ensures next { result ≡ next_place place slot.old.lits.items }
{
    slot.moved = place as u32;
    if slot.lits.is_empty() {
        place
    } else {
        place + 1
    }
}

/// Says in each slot which place its clause gets where the empty slots go.
pub fn number(slots: &mut [Slot])
    requires { length slots.old ≤ 2 ^ 32 }
    ensures { slots.new ≡ numbered 0 slots.old }
{
    let mut next = 0;
    for slot in slots.iter_mut() {
        next = number_slot(slot, next);
    }
}

/// Renames ids by the places that the slots say.
pub fn rename(ids: &mut [ClauseId], slots: &[Slot])
    requires { All (λ id. id.place < length slots.now) ids.old }
    ensures { ids.new ≡ map (moved_id (moved_of slots.now)) ids.old }
{
    for id in ids.iter_mut() {
        id.place = slots[id.place as usize].moved;
    }
}

/// Renames the ids of all watch lists.
pub fn rename_all(watched: &mut [WatchList], slots: &[Slot])
    requires { All (All (λ id. id.place < length slots.now)) watched.old }
    ensures { watched.new ≡ map (map (moved_id (moved_of slots.now))) watched.old }
{
    for ids in watched.iter_mut() {
        ids.rename(slots);
    }
}

/// Takes the empty slots out.
pub fn drop_empty(slots: &mut Vec<Slot>)
    ensures { slots.new.items ≡ filter holds_clause slots.old.items }
{
    slots.retain(|s| !s.lits.is_empty());
}
