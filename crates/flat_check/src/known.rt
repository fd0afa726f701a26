//! What each state violates, worked out once for all steps that lead there.
#![tactic(auto, using(crate::proofs::TableLemmas::branches))]

ghost use Rattle.std.specs.Prelude.{◌≡◌, ◌++◌, ◌∷◌, [], IfOk};
ghost use Rattle.flat_check.specs.Table.{violated_by, IsKnown};

use crate::firing::violated;
use murphi_ast::rule::RuleDecl;
use murphi_ast::text::{Memory, Text};
use sqlite_items::{Boxed, Items};
use std::alloc::Global;

/// What the states violate that begin with the cells on the way here: a branch for each value of
/// the next cell, and at the end the item whose formula is the first that the state violates.
#[derive(Drop)]
pub enum Known {
    State {
        violates: Option<usize>,
    },
    Cell {
        undefined: Boxed<Known>,
        falsity: Boxed<Known>,
        truth: Boxed<Known>,
    },
}

impl Known {
    /// The item whose formula is the first that a state violates, or none.
    pub fn violated(&self, state: &[Option<bool>]) -> Option<usize>
        ensures { result ≡ violated_by self.now state.now }
    {
        match self {
            Known::State { violates } => *violates,
            Known::Cell {
                undefined,
                falsity,
                truth,
            } => match state {
                [] => None,
                [cell, rest @ ..] => match cell {
                    None => undefined.get().violated(rest),
                    Some(false) => falsity.get().violated(rest),
                    Some(true) => truth.get().violated(rest),
                },
            },
        }
    }
}

/// These cells and one more.
pub fn extended(
    alloc: Global,
    front: &[Option<bool>],
    cell: Option<bool>,
) -> Result<Items<Option<bool>>, Memory>
    ensures { IfOk result (λ cells. cells ≡ front.now ++ cell ∷ []) }
{
    let mut cells = Items::from_slice(alloc, front)?;
    cells.push(cell)?;
    Ok(cells)
}

/// What the states violate that begin with these cells and have `left` more.
#[cycle(build)]
pub fn build(
    alloc: Global,
    names: &[Text],
    items: &[RuleDecl],
    front: &[Option<bool>],
    left: usize,
) -> Result<Known, Memory>
    ensures { IfOk result (λ t. IsKnown names.now items.now front.now left t) }
{
    if left == 0 {
        let violates = violated(alloc, names, front, items)?;
        return Ok(Known::State { violates });
    }
    let undefined = build_with(alloc, names, items, front, None, left - 1)?;
    let falsity = build_with(alloc, names, items, front, Some(false), left - 1)?;
    let truth = build_with(alloc, names, items, front, Some(true), left - 1)?;
    Ok(Known::Cell {
        undefined,
        falsity,
        truth,
    })
}

/// The same, where the next cell is this one, and `left` more follow it.
#[cycle(build)]
fn build_with(
    alloc: Global,
    names: &[Text],
    items: &[RuleDecl],
    front: &[Option<bool>],
    cell: Option<bool>,
    left: usize,
) -> Result<Boxed<Known>, Memory>
    ensures { IfOk result (λ t. IsKnown names.now items.now (front.now ++ cell ∷ []) left t) }
{
    let cells = extended(alloc, front, cell)?;
    let part = build(alloc, names, items, cells.as_slice(), left)?;
    let part = Boxed::new(alloc, part)?;
    Ok(part)
}
