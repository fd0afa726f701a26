//! The formulas of pieces.

#![tactic(auto, using(crate::proofs::CountLemmas::counting))]

ghost use Rattle.std.specs.Prelude.{◌≡◌, ◌≤◌, map, IfOk};
ghost use Rattle.std.specs.List.{All};
ghost use Rattle.lemma_strengthen.specs.Opening.{formula_of, formula_body, variables};

use crate::formula::{Formula, FormulaKind};
use crate::open::{Room, open};
use sqlite_items::Items;
use std::alloc::Global;
use term_core::machine::Piece;
use term_core::term::Term;
use term_core::text::Memory;

/// One formula for each piece in order, all of this kind and with a prefix of `length` variables: the
/// first are the piece's binders, and its body is opened to the others. Together they say what the pieces
/// say (`laws::formulas_say_what_pieces_say`).
pub fn normal(
    alloc: Global,
    kind: FormulaKind,
    length: u32,
    pieces: Items<Piece>,
) -> Result<Items<Formula>, Memory>
    requires { All (λ piece. piece.binders ≤ length) pieces }
    ensures { IfOk result (λ out. out ≡ map (formula_of kind length) pieces) }
{
    let out = formulas(alloc, &kind, length, pieces.as_slice())?;
    Ok(out)
}

/// The formulas of pieces that are kept.
fn formulas(
    alloc: Global,
    kind: &FormulaKind,
    length: u32,
    pieces: &[Piece],
) -> Result<Items<Formula>, Memory>
    requires { All (λ piece. piece.binders ≤ length) pieces.now }
    ensures { IfOk result (λ out. out ≡ map (formula_of kind.now length) pieces.now) }
{
    let mut out = Items::new(alloc);
    for piece in pieces {
        let kind = kind.copy(alloc)?;
        let body = opened_body(alloc, length, piece)?;
        out.push(Formula {
            kind,
            prefix: length,
            body,
        })?;
    }
    Ok(out)
}

/// The body of a piece, opened for a prefix of so many variables.
fn opened_body(alloc: Global, prefix: u32, piece: &Piece) -> Result<Term, Memory>
    requires { piece.now.binders ≤ prefix }
    ensures { IfOk result (λ out. out ≡ formula_body prefix piece.now) }
{
    let mut names = first_variables(alloc, piece.binders)?;
    let room = Room {
        to: prefix,
        next: piece.binders,
        left: prefix - piece.binders,
    };
    let out = open(alloc, &piece.body, true, &mut names, room)?;
    Ok(out.term)
}

/// The variables from 0 on.
fn first_variables(alloc: Global, count: u32) -> Result<Items<Term>, Memory>
    ensures { IfOk result (λ out. out ≡ variables count) }
{
    let mut out = Items::new(alloc);
    for number in 0..count {
        out.push(Term::Var(number))?;
    }
    Ok(out)
}
