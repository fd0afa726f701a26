//! Shapes of designators, and what a body reads and writes. Contracts see these by `specs/Seen`.

#![tactic(auto, using(crate::proofs::ShapeEquations::shapes))]

ghost use Rattle.std.specs.Prelude.{◌≡◌, IfOk};
ghost use Rattle.scalarset_rules.specs.Rules.{same_part, is_prefix, overlap, marks, is_it, has_at, first_at};
ghost use Rattle.scalarset_rules.specs.Accesses.{same_binder, placed_shape};
ghost use Rattle.murphi_typed.specs.Store.{same_owner};
ghost use Rattle.scalarset_rules.specs.Seen.{seen_owner, seen_shape};

use murphi_ast::text::{Memory, Text};
use murphi_ast::token::Span;
use sqlite_items::Items;
use std::alloc::Global;

/// A bound variable of an opened body: that of the body at this depth in calls, by its number there.
#[derive(Debug, Clone, Copy, PartialEq, Eq)]
pub struct Binder {
    pub depth: u32,
    pub number: u32,
}

/// A part of a shape: a field, or the mark for an index, with the bound variable that the index is
/// itself, if it is one.
#[derive(Drop)]
pub enum Part {
    Field(Text),
    Index(Option<Binder>),
}

/// The variable of a shape: a global, or a local or a formal of the body at this depth in calls.
#[derive(Debug, Clone, Copy, PartialEq, Eq)]
pub(crate) enum Variable {
    Global(u32),
    Local { depth: u32, number: u32 },
    Formal { depth: u32, number: u32 },
}

/// A variable, with field names and a mark for each index.
#[derive(Drop)]
pub(crate) struct Shape {
    pub owner: Variable,
    pub parts: Items<Part>,
}

/// What a formal stands for: by value, for the bound variable that its argument is itself, if it is one;
/// by `var`, for the designator that the call gives.
#[derive(Drop)]
pub(crate) enum Stand {
    Valued(Option<Binder>),
    Placed(Shape),
}

/// A designator that is read or written. `by` is the place of the called name, where it comes from the
/// opening of a call.
#[derive(Drop)]
pub(crate) struct Access {
    pub write: bool,
    pub shape: Shape,
    pub at: Span,
    pub by: Option<Span>,
}

pub(crate) fn is_same_binder(v: Binder, w: Binder) -> bool
    ensures { result ≡ same_binder v w }
{
    v.depth == w.depth && v.number == w.number
}

fn is_mark(v: Binder, m: Option<Binder>) -> bool
    ensures { result ≡ is_it v m }
{
    match m {
        None => false,
        Some(w) => is_same_binder(v, w),
    }
}

fn is_same_part(a: &Part, b: &Part) -> bool
    ensures { result ≡ same_part a.now b.now }
{
    match a {
        Part::Field(name) => match b {
            Part::Field(other) => name.bytes() == other.bytes(),
            Part::Index(_) => false,
        },
        Part::Index(_) => match b {
            Part::Field(_) => false,
            Part::Index(_) => true,
        },
    }
}

fn is_front(front: &[Part], all: &[Part]) -> bool
    ensures { result ≡ is_prefix front.now all.now }
{
    for at in 0..front.len() {
        if at < all.len() {
            if !is_same_part(&front[at], &all[at]) {
                return false;
            }
        } else {
            return false;
        }
    }
    true
}

fn is_same_variable(a: Variable, b: Variable) -> bool
    ensures { result ≡ same_owner (seen_owner a) (seen_owner b) }
{
    match a {
        Variable::Global(k) => match b {
            Variable::Global(m) => k == m,
            _ => false,
        },
        Variable::Local { depth, number } => match b {
            Variable::Local {
                depth: d,
                number: n,
            } => depth == d && number == n,
            _ => false,
        },
        Variable::Formal { depth, number } => match b {
            Variable::Formal {
                depth: d,
                number: n,
            } => depth == d && number == n,
            _ => false,
        },
    }
}

impl Shape {
    /// Whether one shape is a prefix of the other.
    pub fn overlaps(&self, other: &Shape) -> bool
        ensures { result ≡ overlap (seen_shape self.now) (seen_shape other.now) }
    {
        if !is_same_variable(self.owner, other.owner) {
            return false;
        }
        if is_front(self.parts.as_slice(), other.parts.as_slice()) {
            return true;
        }
        is_front(other.parts.as_slice(), self.parts.as_slice())
    }
}

/// Whether the index at this place, among the indices from 0, is the variable.
pub(crate) fn is_at(v: Binder, place: usize, parts: &[Part]) -> bool
    ensures { result ≡ has_at v place (marks parts.now) }
{
    let mut left = place;
    for part in parts {
        match part {
            Part::Field(_) => {}
            Part::Index(m) => {
                if left == 0 {
                    return is_mark(v, *m);
                }
                left -= 1;
            }
        }
    }
    false
}

/// The place of the first index that is the variable.
pub(crate) fn first_place(v: Binder, parts: &[Part]) -> Option<usize>
    ensures { result ≡ first_at v (marks parts.now) }
{
    let mut passed = 0usize;
    for part in parts {
        match part {
            Part::Field(_) => {}
            Part::Index(m) => {
                if is_mark(v, *m) {
                    return Some(passed);
                }
                passed += 1;
            }
        }
    }
    None
}
