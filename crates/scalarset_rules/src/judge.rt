//! The breaks of one loop over nodes, and the first of several breaks.

#![tactic(auto, using(crate::proofs::JudgeEquations::breaks))]

ghost use Rattle.std.specs.Prelude.{◌≡◌, ◌∷◌, [], not, map};
ghost use Rattle.scalarset_rules.specs.Rules.{is_before, breaks_at, sooner, first_break, blame, rule_of, lacks, is_deeper, loop_breaks};
ghost use Rattle.scalarset_rules.specs.Seen.{seen_owner, seen_access, pair_breaks, if_near, first_pair, first_placed, first_of_write, first_of_writes, loop_seen};

use crate::shape::{Access, Binder, Variable, first_place, is_at};
use murphi_ast::token::Span;

/// A break of a rule, by its number from 1 to 9, at a place of the text.
#[derive(Debug, Clone, Copy, PartialEq, Eq)]
pub struct Break {
    pub rule: u8,
    pub at: Span,
}

fn is_earlier(b: Break, c: Break) -> bool
    ensures { result ≡ is_before b c }
{
    if b.at.line != c.at.line {
        return b.at.line < c.at.line;
    }
    if b.at.column != c.at.column {
        return b.at.column < c.at.column;
    }
    b.rule < c.rule
}

/// The first of two, if there is one.
pub(crate) fn first_of(a: Option<Break>, b: Option<Break>) -> Option<Break>
    ensures { result ≡ sooner a b }
{
    match a {
        None => b,
        Some(x) => match b {
            None => a,
            Some(y) => { if is_earlier(y, x) { b } else { a } }
        },
    }
}

pub(crate) fn one(rule: u8, at: Span) -> Option<Break>
    ensures { result ≡ first_break (breaks_at rule (at ∷ [])) }
{
    Some(Break { rule, at })
}

/// The break by two accesses: at its own place, or at the called names of the calls that they come from.
fn blamed(rule: u8, at: Span, by: Option<Span>, from: Option<Span>) -> Option<Break>
    ensures { result ≡ first_break (blame rule at by from) }
{
    match by {
        None => match from {
            None => one(rule, at),
            Some(call) => one(9, call),
        },
        Some(call) => match from {
            None => one(9, call),
            Some(other) => first_of(one(9, call), one(9, other)),
        },
    }
}

fn is_near(depth: u32, owner: Variable) -> bool
    ensures { result ≡ not (is_deeper depth (seen_owner owner)) }
{
    match owner {
        Variable::Global(_) => true,
        Variable::Local { depth: of, .. } => !(depth < of),
        Variable::Formal { depth: of, .. } => !(depth < of),
    }
}

fn lacks(v: Binder, place: usize, w: &Access, a: &Access) -> bool
    ensures { result ≡ lacks v place (seen_access w.now) (seen_access a.now) }
{
    if w.shape.overlaps(&a.shape) {
        !is_at(v, place, a.shape.parts.as_slice())
    } else {
        false
    }
}

fn rule_of(a: &Access) -> u8
    ensures { result ≡ rule_of (seen_access a.now) }
{
    if a.write { 6 } else { 7 }
}

fn pair(v: Binder, place: usize, w: &Access, a: &Access) -> Option<Break>
    ensures { result ≡ if_near v (seen_access a.now) (first_break (pair_breaks v place (seen_access w.now) (seen_access a.now))) }
{
    if !is_near(v.depth, a.shape.owner) {
        return None;
    }
    if lacks(v, place, w, a) {
        blamed(rule_of(a), a.at, w.by, a.by)
    } else {
        None
    }
}

fn pairs(v: Binder, place: usize, w: &Access, all: &[Access]) -> Option<Break>
    ensures { result ≡ first_pair v place (seen_access w.now) all.now }
{
    let mut first = None;
    for a in all {
        first = first_of(first, pair(v, place, w, a));
    }
    first
}

fn write_break(v: Binder, all: &[Access], w: &Access) -> Option<Break>
    ensures { result ≡ if_near v (seen_access w.now) (first_of_write v all.now (seen_access w.now)) }
{
    if !is_near(v.depth, w.shape.owner) {
        return None;
    }
    if !w.write {
        return None;
    }
    match first_place(v, w.shape.parts.as_slice()) {
        None => blamed(5, w.at, w.by, None),
        Some(place) => pairs(v, place, w, all),
    }
}

fn writes(v: Binder, all: &[Access]) -> Option<Break>
    ensures { result ≡ first_of_writes v all.now all.now }
{
    let mut first = None;
    for w in all {
        first = first_of(first, write_break(v, all, w));
    }
    first
}

/// The first break of a loop with this variable and these accesses.
pub(crate) fn loop_break(v: Binder, all: &[Access]) -> Option<Break>
    ensures { result ≡ first_break (loop_breaks (loop_seen v all.now)) }
{
    writes(v, all)
}
