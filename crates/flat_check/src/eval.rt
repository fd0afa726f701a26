//! The value of an expression in a state, from left to right, with its faults. Nothing here takes
//! memory. A state is a slice of cells, one for each of the names; a cell is none where its
//! variable is undefined, and a value is none where its evaluation faults.

ghost use Rattle.std.specs.Prelude.{◌≡◌};
ghost use Rattle.murphi_ast.specs.State.{cell_of};
ghost use Rattle.murphi_ast.specs.Meaning.{value_of, joined, compared};
ghost use Rattle.flat_check.specs.Walk.{has_no_selectors, links_value};

use murphi_ast::expr::{ChainOp, CompareOp, Designator, Expr, Link};
use murphi_ast::text::Text;

/// The cell of a variable; a name that is none of them is undefined.
pub fn cell(names: &[Text], cells: &[Option<bool>], name: &Text) -> Option<bool>
    ensures { result ≡ cell_of names.now cells.now name.now }
{
    for (at, one) in names.iter().enumerate() {
        if at >= cells.len() {
            return None;
        }
        if one.bytes() == name.bytes() {
            return cells[at];
        }
    }
    None
}

/// Whether a designator is a plain name, without fields and indices.
pub fn is_plain(place: &Designator) -> bool
    ensures { result ≡ has_no_selectors place.now.selectors }
{
    place.selectors.is_empty()
}

/// The value of an expression, or none where it faults.
#[cycle(value)]
pub fn value(names: &[Text], cells: &[Option<bool>], e: &Expr) -> Option<bool>
    ensures { result ≡ value_of names.now cells.now e.now }
{
    match e {
        Expr::Truth { value, .. } => Some(*value),
        Expr::Place(place) => {
            if is_plain(place) {
                cell(names, cells, &place.root.name)
            } else {
                None
            }
        }
        Expr::Not { body, .. } => match value(names, cells, body.get()) {
            Some(b) => Some(!b),
            None => None,
        },
        Expr::Compare { op, left, right } => {
            let left = value(names, cells, left.get());
            let right = value(names, cells, right.get());
            compare(*op, left, right)
        }
        Expr::Implies { left, right } => match value(names, cells, left.get()) {
            Some(true) => value(names, cells, right.get()),
            Some(false) => Some(true),
            None => None,
        },
        Expr::Chain { first, rest } => {
            let first = value(names, cells, first.get());
            chain(names, cells, first, rest.as_slice())
        }
        Expr::Number { .. }
        | Expr::Call { .. }
        | Expr::Minus { .. }
        | Expr::Choice { .. }
        | Expr::Quantified { .. }
        | Expr::IsUndefined { .. } => None,
    }
}

/// The value of a chain, given that of its first operand.
#[cycle(value)]
fn chain(names: &[Text], cells: &[Option<bool>], first: Option<bool>, rest: &[Link]) -> Option<bool>
    ensures { result ≡ links_value names.now cells.now first rest.now }
{
    let mut left = first;
    for link in rest {
        left = join(names, cells, left, link);
    }
    left
}

/// The value of one more operand of a chain, which is evaluated only where the value before it
/// does not settle the chain.
#[cycle(value)]
fn join(names: &[Text], cells: &[Option<bool>], left: Option<bool>, link: &Link) -> Option<bool>
    ensures { result ≡ joined link.now.op left (value_of names.now cells.now link.now.operand) }
{
    match (link.op, left) {
        (ChainOp::Or, Some(true)) => Some(true),
        (ChainOp::Or, Some(false)) => value(names, cells, &link.operand),
        (ChainOp::And, Some(false)) => Some(false),
        (ChainOp::And, Some(true)) => value(names, cells, &link.operand),
        _ => None,
    }
}

/// The value of a comparison, both sides of which are evaluated.
fn compare(op: CompareOp, left: Option<bool>, right: Option<bool>) -> Option<bool>
    ensures { result ≡ compared op left right }
{
    match (op, left, right) {
        (CompareOp::Equal, Some(a), Some(b)) => Some(a == b),
        (CompareOp::NotEqual, Some(a), Some(b)) => Some(a != b),
        _ => None,
    }
}
