//! Sets of literals as one mark for each literal, beside a list that has each marked one.

ghost use Rattle.std.specs.Prelude.{◌≡◌, ◌==◌, ◌&&◌, ◌||◌, ◌<◌, length, true, false, not, slice_set, OnOk, IfOk};
ghost use Rattle.clause_core.specs.declared.literal.Lit.{Lit as Literal};
ghost use Rattle.clause_derivation.specs.Resolution.{without};
ghost use Rattle.clause_core.specs.Members.{has, NoneTwice};
ghost use Rattle.clause_derivation.specs.Marking.{mark_of, AreMarks, AreWithin, HavePlaces, LosesMark};

use clause_core::{Lit, Memory};
use std::alloc::Global;

/// Whether a literal is marked.
pub fn is_marked(marked: &[bool], l: Lit) -> bool
    ensures { result ≡ mark_of marked.now l }
{
    let at = l.code as usize;
    if at < marked.len() { marked[at] } else { false }
}

/// Takes the mark of one literal away.
pub fn unmark(marked: &mut [bool], l: Lit)
    ensures lost { LosesMark marked.old marked.new l }
    ensures write { marked.new ≡ slice_set marked.old l.code false }
{
    let at = l.code as usize;
    if at < marked.len() {
        marked[at] = false;
    }
}

/// Takes the marks of these literals away.
pub fn unmark_each(marked: &mut [bool], lits: &[Lit])
    ensures { (k : Literal) → mark_of marked.new k ≡ (mark_of marked.old k && not (has lits.now k)) }
{
    for l in lits {
        unmark(marked, *l);
    }
}

/// Marks one literal.
pub fn mark_one(marked: &mut [bool], touched: &mut Vec<Lit>, l: Lit) -> Result<(), Memory>
    requires place { l.code < length marked.old }
    requires within { AreWithin marked.old touched.old.items }
    ensures within { AreWithin marked.new touched.new.items }
    ensures ok { OnOk result ((k : Literal)
        → mark_of marked.new k ≡ (mark_of marked.old k || l.code == k.code)) }
{
    let at = l.code as usize;
    if !marked[at] {
        touched.push(l)?;
        marked[at] = true;
    }
    Ok(())
}

/// Marks these literals.
pub fn mark_each(marked: &mut [bool], touched: &mut Vec<Lit>, lits: &[Lit]) -> Result<(), Memory>
    requires places { HavePlaces (length marked.old) lits.now }
    requires within { AreWithin marked.old touched.old.items }
    ensures within { AreWithin marked.new touched.new.items }
    ensures ok { OnOk result ((k : Literal)
        → mark_of marked.new k ≡ (mark_of marked.old k || has lits.now k)) }
{
    for l in lits {
        mark_one(marked, touched, *l)?;
    }
    Ok(())
}

/// Marks these literals, but for one.
pub fn mark_others(
    marked: &mut [bool],
    touched: &mut Vec<Lit>,
    lits: &[Lit],
    but: Lit,
) -> Result<(), Memory>
    requires places { HavePlaces (length marked.old) lits.now }
    requires within { AreWithin marked.old touched.old.items }
    ensures within { AreWithin marked.new touched.new.items }
    ensures ok { OnOk result ((k : Literal)
        → mark_of marked.new k ≡ (mark_of marked.old k || has (without lits.now but) k)) }
{
    for l in lits {
        if l.code != but.code {
            mark_one(marked, touched, *l)?;
        }
    }
    Ok(())
}

/// The marked literals, each once. Their marks are taken away.
pub fn gather(alloc: Global, marked: &mut [bool], touched: &[Lit]) -> Result<Vec<Lit>, Memory>
    requires within { AreWithin marked.old touched.now }
    ensures within { AreWithin marked.new touched.now }
    ensures marks { IfOk result (λ v. AreMarks marked.old v.items) }
    ensures once { IfOk result (λ v. NoneTwice v.items) }
    ensures range { IfOk result (λ v. HavePlaces (length marked.old) v.items) }
{
    let mut out = Vec::new(alloc);
    for l in touched {
        if is_marked(marked, *l) {
            out.push(*l)?;
            unmark(marked, *l);
        }
    }
    Ok(out)
}
