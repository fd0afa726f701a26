//! What `clear` gives to the cells under a place, and copies of types.

#![tactic(auto, using(crate::proofs::LeafEquations::leaves))]

ghost use Rattle.std.specs.Prelude.{◌≡◌, ◌<◌, length, slice_get, Some, drop, IfOk};
ghost use Rattle.murphi_typed.specs.Families.{leaf_at};
ghost use Rattle.rule_inline.specs.Tables.{Key};
ghost use Rattle.rule_inline.specs.Bodies.{cleared};
ghost use Rattle.rule_parts.specs.Steps.{list_leaf};

use crate::place::{copy_text, is_same_text};
use murphi_ast::text::Text;
use murphi_typed::types::{AnyType, Field, Simple};
use rule_terms::build::undefined;
use sqlite_items::{Boxed, Items};
use std::alloc::Global;
use term_core::term::Term;
use term_core::text::Memory;

/// A type equal to this one.
#[cycle(copy_type)]
pub fn copy_type(alloc: Global, of: &AnyType) -> Result<AnyType, Memory>
    ensures { IfOk result (λ t. t ≡ of.now) }
{
    match of {
        AnyType::Simple(one) => Ok(AnyType::Simple(*one)),
        AnyType::Record { fields } => {
            let fields = copy_fields(alloc, fields.as_slice())?;
            Ok(AnyType::Record { fields })
        }
        AnyType::Array { index, item } => {
            let item = copy_type(alloc, item.get())?;
            let item = Boxed::new(alloc, item)?;
            Ok(AnyType::Array {
                index: *index,
                item,
            })
        }
    }
}

#[cycle(copy_type)]
fn copy_fields(alloc: Global, all: &[Field]) -> Result<Items<Field>, Memory>
    ensures { IfOk result (λ out. out ≡ all.now) }
{
    let mut out = Items::new(alloc);
    for one in all {
        let name = copy_text(alloc, &one.name)?;
        let of = copy_type(alloc, &one.of)?;
        out.push(Field { name, of })?;
    }
    Ok(out)
}

fn name_at(path: &[Text], from: usize) -> &Text
    requires { from < length path.now }
    ensures { slice_get path.now from ≡ Some result.now }
{
    &path[from]
}

/// The simple type that the field names from this one on lead to, whatever the indices are.
#[cycle(leaf)]
fn leaf_at(of: &AnyType, path: &[Text], from: usize) -> Option<Simple>
    ensures { result ≡ leaf_at of.now (drop from path.now) }
{
    match of {
        AnyType::Simple(one) => { if from < path.len() { None } else { Some(*one) } }
        AnyType::Record { fields } => {
            if from < path.len() {
                leaf_in(fields.as_slice(), name_at(path, from), path, from + 1)
            } else {
                None
            }
        }
        AnyType::Array { item, .. } => leaf_at(item.get(), path, from),
    }
}

#[cycle(leaf)]
fn leaf_in(fields: &[Field], name: &Text, path: &[Text], from: usize) -> Option<Simple>
    ensures { result ≡ list_leaf fields.now name.now (drop from path.now) }
{
    for f in fields {
        if is_same_text(&f.name, name) {
            return leaf_at(&f.of, path, from);
        }
    }
    None
}

/// What `clear` gives to the cell under a designator of this type.
pub fn cleared(of: &AnyType, path: &[Text]) -> Term
    ensures { (key : Key) → result ≡ cleared of.now path.now key }
{
    match leaf_at(of, path, 0) {
        None => undefined(),
        Some(leaf) => Term::Known(leaf.cleared()),
    }
}
