//! Types by parts: copies, and whether two are the same.
#![tactic(auto, using(crate::proofs::TypeEquations::types))]

ghost use Rattle.std.specs.Prelude.{◌≡◌, ◌&&◌, IfOk};
ghost use Rattle.std.specs.Option.{option_copied};
ghost use Rattle.murphi_typed.specs.WellTyped.{has_parts, same_type};
ghost use Rattle.type_parts.specs.TypeLists.{list_field, each_of};

use crate::fitting::same_simple;
use murphi_ast::text::{Memory, Text};
use murphi_typed::types::{AnyType, Field};
use sqlite_items::{Boxed, Items};
use std::alloc::Global;

/// A type equal to this one.
#[cycle(copy_type)]
pub fn copy_type(alloc: Global, of: &AnyType) -> Result<AnyType, Memory>
    ensures { IfOk result (λ t. t ≡ of.now) }
{
    match of {
        AnyType::Simple(one) => Ok(AnyType::Simple(*one)),
        AnyType::Record { fields } => {
            let fields = copy_fields(alloc, fields.as_slice())?;
            Ok(AnyType::Record { fields })
        }
        AnyType::Array { index, item } => {
            let item = copy_type(alloc, item.get())?;
            let item = Boxed::new(alloc, item)?;
            Ok(AnyType::Array {
                index: *index,
                item,
            })
        }
    }
}

#[cycle(copy_type)]
fn copy_fields(alloc: Global, all: &[Field]) -> Result<Items<Field>, Memory>
    ensures { IfOk result (λ out. out ≡ all.now) }
{
    let mut out = Items::new(alloc);
    for one in all {
        let name = one.name.copy(alloc)?;
        let of = copy_type(alloc, &one.of)?;
        out.push(Field { name, of })?;
    }
    Ok(out)
}

/// The type of the first field of a name.
pub fn field_type<'a>(fields: &'a [Field], name: &Text) -> Option<&'a AnyType>
    ensures { option_copied result ≡ list_field fields.now name.now }
{
    for one in fields {
        if one.name.bytes() == name.bytes() {
            return Some(&one.of);
        }
    }
    None
}

/// Whether each part of a type is one of the other's, under the same names.
#[cycle(parts)]
fn has_parts(a: &AnyType, b: &AnyType) -> bool
    ensures { result ≡ has_parts a.now b.now }
{
    match a {
        AnyType::Simple(a) => match b {
            AnyType::Simple(b) => same_simple(*a, *b),
            AnyType::Record { .. } => false,
            AnyType::Array { .. } => false,
        },
        AnyType::Record { fields } => match b {
            AnyType::Simple(_) => false,
            AnyType::Record { fields: others } => each_field(fields.as_slice(), others.as_slice()),
            AnyType::Array { .. } => false,
        },
        AnyType::Array { index, item } => match b {
            AnyType::Simple(_) => false,
            AnyType::Record { .. } => false,
            AnyType::Array {
                index: other,
                item: more,
            } => {
                let same = same_simple(*index, *other);
                let parts = has_parts(item.get(), more.get());
                if same { parts } else { false }
            }
        },
    }
}

#[cycle(parts)]
fn each_field(fields: &[Field], others: &[Field]) -> bool
    ensures { result ≡ each_of fields.now others.now }
{
    for one in fields {
        match field_type(others, &one.name) {
            None => return false,
            Some(other) => {
                if !has_parts(&one.of, other) {
                    return false;
                }
            }
        }
    }
    true
}

/// Whether two types are one: each has the parts of the other under the same names, in whatever order.
pub fn same_type(a: &AnyType, b: &AnyType) -> bool
    ensures { result ≡ same_type a.now b.now }
{
    if has_parts(a, b) {
        has_parts(b, a)
    } else {
        false
    }
}
