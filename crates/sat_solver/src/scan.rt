//! What a clause says under the literals that are true.

ghost use Rattle.std.specs.Prelude.{◌≡◌, ◌≤◌, ◌<◌, false, true, length, IfSome, IfNone, slice_index_or};
ghost use Rattle.std.specs.List.{AllWithin};
ghost use Rattle.clause_core.specs.declared.literal.Lit.{Lit as Literal};
ghost use Rattle.sat_solver.specs.Assigned.{literals_of, is_false, differs, Says};

use crate::trail::Trail;
use clause_core::Lit;

/// What a clause says.
#[derive(Clone, Copy, Debug, PartialEq, Eq)]
pub enum Found {
    /// The clause forces nothing, and not all of its literals are false.
    Open,
    /// This literal has no value, and all others are false.
    Forced(Lit),
    /// All literals are false.
    Conflict,
}

/// Whether a literal is not the free one, where there is a free one.
fn is_other(free: Option<Lit>, l: Lit) -> bool
    ensures { result ≡ differs free l }
{
    match free {
        None => false,
        Some(other) => other.code != l.code,
    }
}

/// What a clause says under the literals of a trail.
pub fn scan(trail: &Trail, lits: &[Lit]) -> Found
    ensures { Says (literals_of trail.now.entries) lits.now result }
{
    let mut free = None;
    for l in lits {
        if !trail.is_false(*l) {
            if trail.is_true(*l) {
                return Found::Open;
            }
            if is_other(free, *l) {
                return Found::Open;
            }
            free = Some(*l);
        }
    }
    match free {
        None => Found::Conflict,
        Some(l) => Found::Forced(l),
    }
}

/// The index, from 2 on, of the first literal of a clause that is not false, if there is one.
pub fn spare(trail: &Trail, lits: &[Lit]) -> Option<usize>
    ensures some { IfSome result (λ i. 2 ≤ i) }
    ensures within { IfSome result (λ i. i < length lits.now) }
    ensures free { IfSome result (λ i. (d : Literal)
        → is_false (literals_of trail.now.entries) (slice_index_or lits.now i d) ≡ false) }
    ensures none { IfNone result (AllWithin
        (λ l. is_false (literals_of trail.now.entries) l ≡ true) lits.now 2 (length lits.now)) }
{
    for i in 2..lits.len() {
        if !trail.is_false(lits[i]) {
            return Some(i);
        }
    }
    None
}
