//! Propagation: the literals that clauses force, by two watched literals a clause.

ghost use Rattle.std.specs.Prelude.{◌≡◌, ◌<◌, length, true, false, slice_index_or, IfOk, IfSome};
ghost use Rattle.std.specs.List.{AllWithin};
ghost use Rattle.clause_core.specs.declared.literal.Lit.{Lit as Literal};
ghost use Rattle.clause_core.specs.Literal.{variable_of};
ghost use Rattle.sat_arena.specs.Live.{IsLive, literals};
ghost use Rattle.sat_solver.specs.Naming.{IsKnown, IsUsable};
ghost use Rattle.sat_solver.specs.Assigned.{literals_of, is_false, Grows};
ghost use Rattle.sat_solver.specs.Propagated.{conflict_of};

use crate::origin::{Known, Origin};
use crate::scan::{Found, scan, spare};
use crate::trail::Trail;
use crate::watched::Watched;
use clause_core::{Lit, Memory};
use sat_arena::{Arena, ClauseId};

/// What looking at a watched clause came to.
pub enum Seen {
    /// The clause is watched at another literal now.
    Moved,
    /// The clause is watched where it was.
    Stays,
    /// All literals of the clause are false.
    Conflict(Origin),
}

/// Makes the literal true that a clause forces, if it forces one, and answers whether all its
/// literals are false.
pub fn settle(known: &Known, trail: &mut Trail, origin: Origin) -> Result<bool, Memory>
    requires { IsUsable trail.old.variables known.now.given.now known.now.chains.now }
    ensures variables { trail.new.variables ≡ trail.old.variables }
    ensures starts { trail.new.starts ≡ trail.old.starts }
    ensures grows { Grows (length known.now.given.now) (length known.now.chains.now)
        trail.old.entries trail.new.entries }
    ensures conflict { IfOk result (λ b. b ≡ true
        → IsKnown (length known.now.given.now) (length known.now.chains.now) origin) }
{
    match known.literals(origin) {
        None => Ok(false),
        Some(lits) => match scan(trail, lits) {
            Found::Open => Ok(false),
            Found::Conflict => Ok(true),
            Found::Forced(l) => {
                trail.enqueue(l, Some(origin))?;
                Ok(false)
            }
        },
    }
}

/// Lets a clause be watched at a literal that is not false in the stead of the watched one at an
/// index, and answers whether it has one.
fn leave(arena: &mut Arena, trail: &Trail, id: ClauseId, from: usize) -> Result<bool, Memory>
    requires live { IsLive arena.old.live id }
    requires from { from < 2 }
    ensures variables { arena.new.variables ≡ arena.old.variables }
    ensures moved { IfOk result (λ b. b ≡ true → (d : Literal)
        → is_false (literals_of trail.now.entries)
        (slice_index_or (literals arena.new.live id) from d) ≡ false) }
    ensures stays { IfOk result (λ b. b ≡ false → AllWithin
        (λ l. is_false (literals_of trail.now.entries) l ≡ true)
        (literals arena.old.live id) 2 (length (literals arena.old.live id))) }
{
    match spare(trail, arena.clause(id)) {
        None => Ok(false),
        Some(to) => {
            arena.move_watch(id, from, to)?;
            Ok(true)
        }
    }
}

/// Makes the literal true that a watched clause forces, if it forces one.
fn settle_watched(
    known: &Known,
    watched: &Watched,
    trail: &mut Trail,
    id: ClauseId,
) -> Result<Seen, Memory>
    requires { IsUsable trail.old.variables known.now.given.now known.now.chains.now }
    ensures variables { trail.new.variables ≡ trail.old.variables }
    ensures starts { trail.new.starts ≡ trail.old.starts }
    ensures grows { Grows (length known.now.given.now) (length known.now.chains.now)
        trail.old.entries trail.new.entries }
    ensures conflict { IfOk result (λ s. IfSome (conflict_of s)
        (IsKnown (length known.now.given.now) (length known.now.chains.now))) }
{
    match watched.origin(id) {
        None => Ok(Seen::Stays),
        Some(origin) => {
            if settle(known, trail, origin)? {
                return Ok(Seen::Conflict(origin));
            }
            Ok(Seen::Stays)
        }
    }
}

/// Looks at a clause that is watched at a literal which became false.
fn look(
    known: &Known,
    watched: &mut Watched,
    trail: &mut Trail,
    l: Lit,
    at: usize,
) -> Result<Seen, Memory>
    requires usable { IsUsable trail.old.variables known.now.given.now known.now.chains.now }
    requires fits { watched.old.arena.variables ≡ trail.old.variables }
    requires range { variable_of l < trail.old.variables }
    ensures arena { watched.new.arena.variables ≡ watched.old.arena.variables }
    ensures variables { trail.new.variables ≡ trail.old.variables }
    ensures starts { trail.new.starts ≡ trail.old.starts }
    ensures grows { Grows (length known.now.given.now) (length known.now.chains.now)
        trail.old.entries trail.new.entries }
    ensures conflict { IfOk result (λ s. IfSome (conflict_of s)
        (IsKnown (length known.now.given.now) (length known.now.chains.now))) }
{
    let ids = watched.arena.watches(l);
    if at >= ids.len() {
        return Ok(Seen::Stays);
    }
    let id = ids[at];
    let lits = watched.arena.clause(id);
    let from = if lits[0].code == l.code { 0 } else { 1 };
    if trail.is_true(lits[1 - from]) {
        return Ok(Seen::Stays);
    }
    if leave(&mut watched.arena, trail, id, from)? {
        return Ok(Seen::Moved);
    }
    settle_watched(known, watched, trail, id)
}

/// Looks at all clauses that are watched at a literal which became false, up to a conflict.
fn look_at_all(
    known: &Known,
    watched: &mut Watched,
    trail: &mut Trail,
    l: Lit,
) -> Result<Option<Origin>, Memory>
    requires usable { IsUsable trail.old.variables known.now.given.now known.now.chains.now }
    requires fits { watched.old.arena.variables ≡ trail.old.variables }
    requires range { variable_of l < trail.old.variables }
    ensures arena { watched.new.arena.variables ≡ watched.old.arena.variables }
    ensures variables { trail.new.variables ≡ trail.old.variables }
    ensures starts { trail.new.starts ≡ trail.old.starts }
    ensures grows { Grows (length known.now.given.now) (length known.now.chains.now)
        trail.old.entries trail.new.entries }
    ensures conflict { IfOk result (λ o. IfSome o
        (IsKnown (length known.now.given.now) (length known.now.chains.now))) }
{
    let count = watched.arena.watches(l).len();
    let mut at = 0usize;
    for _ in 0..count {
        match look(known, watched, trail, l, at)? {
            Seen::Moved => {}
            Seen::Stays => at = at.saturating_add(1),
            Seen::Conflict(origin) => return Ok(Some(origin)),
        }
    }
    Ok(None)
}

/// Makes true what the true literals force, and answers the clause that is false then, if one is
/// found.
pub fn propagate(
    known: &Known,
    watched: &mut Watched,
    trail: &mut Trail,
) -> Result<Option<Origin>, Memory>
    requires usable { IsUsable trail.old.variables known.now.given.now known.now.chains.now }
    requires fits { watched.old.arena.variables ≡ trail.old.variables }
    ensures arena { watched.new.arena.variables ≡ watched.old.arena.variables }
    ensures variables { trail.new.variables ≡ trail.old.variables }
    ensures starts { trail.new.starts ≡ trail.old.starts }
    ensures grows { Grows (length known.now.given.now) (length known.now.chains.now)
        trail.old.entries trail.new.entries }
    ensures conflict { IfOk result (λ o. IfSome o
        (IsKnown (length known.now.given.now) (length known.now.chains.now))) }
{
    for _ in 0..=trail.variables() {
        match trail.next() {
            None => return Ok(None),
            Some(l) => {
                if let Some(origin) = look_at_all(known, watched, trail, l.negated())? {
                    return Ok(Some(origin));
                }
            }
        }
    }
    Ok(None)
}
