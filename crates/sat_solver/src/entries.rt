//! What a trail does with its entries and values.

ghost use Rattle.std.specs.Prelude.{◌≡◌, ◌<◌, ◌≤◌, ◌*◌, ℕ, false, length, take, slice_index_or, IfOk, IsSome, All};
ghost use Rattle.sat_solver.specs.declared.entry.Entry.{Entry as Made};
ghost use Rattle.sat_solver.specs.Assigned.{reason_in, IsTrail};

use crate::entry::Entry;
use crate::marking::unmark;
use crate::origin::Origin;
use clause_core::{Lit, Memory};
use std::alloc::Global;

/// The reason of the first entry that has this literal, if it has one.
pub fn reason_of(entries: &[Entry], l: Lit) -> Option<Origin>
    ensures { result ≡ reason_in entries.now l }
{
    for entry in entries {
        if entry.lit.code == l.code {
            return entry.reason;
        }
    }
    None
}

/// How many entries there are before the first one without a reason.
pub fn facts(entries: &[Entry]) -> usize
    ensures within { result ≤ length entries.now }
    ensures reasons { All (λ (e : Made). IsSome e.reason) (take result entries.now) }
{
    for (i, entry) in entries.iter().enumerate() {
        if entry.reason.is_none() {
            return i;
        }
    }
    entries.len()
}

/// Takes the entries from the one at `keep` on off, with their values.
pub fn undo(entries: &mut Vec<Entry>, values: &mut [bool], keep: usize)
    ensures items { entries.new.items ≡ take keep entries.old.items }
    ensures trail { (n : ℕ) → IsTrail n entries.old.items values.old
        → IsTrail n entries.new.items values.new }
{
    while entries.len() > keep {
        if let Some(entry) = entries.pop() {
            unmark(values, entry.lit);
        }
    }
}

/// The values of the literals that are no negations, the first for variable 0.
pub fn positives(alloc: Global, values: &[bool], variables: u32) -> Result<Vec<bool>, Memory>
    requires { length values.now ≡ 2 * variables }
    ensures length { IfOk result (λ v. length v.items ≡ variables) }
    ensures values { IfOk result (λ v. (k : ℕ) → k < variables
        → slice_index_or v.items k false ≡ slice_index_or values.now (2 * k) false) }
{
    let mut out = Vec::new(alloc);
    for k in 0..variables as usize {
        out.push(values[2 * k])?;
    }
    Ok(out)
}

/// Keeps the level of a variable.
pub fn put_level(levels: &mut [usize], at: usize, level: usize) {
    if at < levels.len() {
        levels[at] = level;
    }
}

/// Keeps the sign of a variable.
pub fn put_phase(phases: &mut [bool], at: usize, phase: bool) {
    if at < phases.len() {
        phases[at] = phase;
    }
}
