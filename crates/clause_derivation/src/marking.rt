//! Sets of literals as marks: one truth value for each literal, at the place of its code.

ghost use Rattle.std.specs.Prelude.{◌≡◌, ◌&&◌, ◌||◌, ◌≤◌, ◌^◌, List, length};
ghost use Rattle.std.specs.List.{list_all};
ghost use Rattle.clause_core.specs.declared.literal.Lit.{Lit as Literal};
ghost use Rattle.clause_derivation.specs.Resolution.{without, others, resolvent};
ghost use Rattle.clause_core.specs.Members.{has};
ghost use Rattle.clause_derivation.specs.Marking.{mark_of, AreMarks, HavePlaces, LosesMark, Stepped, Unmarks};

use clause_core::{Lit, contains};

/// Whether the literal is marked.
pub fn is_marked(marked: &[bool], l: Lit) -> bool
    ensures { result ≡ mark_of marked.now l }
{
    let at = l.code as usize;
    if at < marked.len() { marked[at] } else { false }
}

/// Whether every one of these literals is marked.
pub fn all_marked(marked: &[bool], lits: &[Lit]) -> bool
    ensures { result ≡ list_all (mark_of marked.now) lits.now }
{
    lits.iter().all(|l| is_marked(marked, *l))
}

/// Marks all of these literals.
pub fn mark_all(marked: &mut [bool], lits: &[Lit])
    requires { HavePlaces (length marked.old) lits.now }
    ensures { (l : Literal) → mark_of marked.new l ≡ (mark_of marked.old l || has lits.now l) }
{
    for l in lits {
        marked[l.code as usize] = true;
    }
}

/// Marks all of these literals but one.
fn mark_others(marked: &mut [bool], lits: &[Lit], but: Lit)
    requires { HavePlaces (length marked.old) lits.now }
    ensures { (l : Literal)
        → mark_of marked.new l ≡ (mark_of marked.old l || has (without lits.now but) l) }
{
    for l in lits {
        if l.code != but.code {
            marked[l.code as usize] = true;
        }
    }
}

/// Takes the marks of these literals away, and answers whether none of them had one.
pub fn unmark_all(marked: &mut [bool], lits: &[Lit]) -> bool
    ensures { Unmarks marked.old marked.new lits.now result }
{
    let mut clean = true;
    for l in lits {
        if is_marked(marked, *l) {
            clean = false;
            marked[l.code as usize] = false;
        }
    }
    clean
}

/// Whether the literal is marked, and its opposite is one of these.
fn clash(marked: &[bool], l: Lit, with: &[Lit], opposite: Lit) -> bool
    ensures { result ≡ (mark_of marked.now l && has with.now opposite) }
{
    if is_marked(marked, l) {
        contains(with, opposite)
    } else {
        false
    }
}

/// Takes the mark of one literal away.
fn unmark(marked: &mut [bool], l: Lit)
    ensures { LosesMark marked.old marked.new l }
{
    let at = l.code as usize;
    if at < marked.len() {
        marked[at] = false;
    }
}

/// Takes the mark of one literal away, and marks all of these but its opposite.
fn replace(marked: &mut [bool], l: Lit, with: &[Lit], opposite: Lit)
    requires { HavePlaces (length marked.old) with.now }
    ensures { (c : List Literal)
        → AreMarks marked.old c → AreMarks marked.new (others c l with.now opposite) }
{
    unmark(marked, l);
    mark_others(marked, with, opposite);
}

/// Resolves the marked clause with another on a variable. Where that is no step, the answer is
/// `false` and nothing changes.
pub fn resolve(marked: &mut [bool], with: &[Lit], pivot: u32) -> bool
    requires places { HavePlaces (length marked.old) with.now }
    requires codes { length marked.old ≤ 2 ^ 32 }
    ensures { (c : List Literal) → AreMarks marked.old c
        → Stepped marked.old marked.new (resolvent pivot c with.now) result }
{
    if 2 * pivot as usize + 1 >= marked.len() {
        return false;
    }
    let positive = Lit::positive(pivot);
    let negative = Lit::negative(pivot);
    let forth = clash(marked, positive, with, negative);
    let back = clash(marked, negative, with, positive);
    if forth {
        if back {
            return false;
        }
        replace(marked, positive, with, negative);
        return true;
    }
    if back {
        replace(marked, negative, with, positive);
        return true;
    }
    false
}
