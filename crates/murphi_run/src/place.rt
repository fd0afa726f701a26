//! Places in the list of the cells in scope: what a field or an index leads to.

#![tactic(auto, using(crate::proofs::PlaceEquations::places))]

ghost use Rattle.std.specs.Prelude.{◌≡◌, IfOk, option_map};
ghost use Rattle.std.specs.Option.{option_copied};
ghost use Rattle.murphi_run.specs.Lists.{list_field};
ghost use Rattle.murphi_run.specs.Places.{at_number, field_of, item_of};
ghost use Rattle.murphi_run.specs.Seen.{seen};

use crate::layout::{field_first, item_first, plus, size};
use murphi_ast::text::{Memory, Text};
use murphi_typed::types::{AnyType, Field};
use term_core::value::Value;

/// What a place leads to: the number of the first cell under it, and its type.
#[derive(Clone, Copy)]
pub struct Spot<'a> {
    pub first: usize,
    pub of: &'a AnyType,
}

/// The type of the first field of a name.
fn field_type<'a>(fields: &'a [Field], name: &Text) -> Option<&'a AnyType>
    ensures { option_copied result ≡ list_field fields.now name.now }
{
    for one in fields {
        if one.name.bytes() == name.bytes() {
            return Some(&one.of);
        }
    }
    None
}

/// A spot of a type, if there is one.
fn found_at(first: usize, of: Option<&AnyType>) -> Option<Spot<'_>>
    ensures { option_map seen result ≡ option_map (at_number first) (option_copied of.entry) }
{
    match of {
        Some(of) => Some(Spot { first, of }),
        None => None,
    }
}

impl<'a> Spot<'a> {
    /// What a field leads to, in a record that has it. It takes no memory; a number that would pass its
    /// range is answered as want of memory.
    pub fn field(self, nodes: u32, name: &Text) -> Result<Option<Spot<'a>>, Memory>
        ensures { IfOk result (λ o. field_of nodes (seen self.entry) name.now ≡ option_map seen o) }
    {
        match self.of {
            AnyType::Simple(_) => Ok(None),
            AnyType::Record { fields } => {
                let before = field_first(nodes, fields.as_slice(), name)?;
                let first = plus(self.first, before)?;
                let of = field_type(fields.as_slice(), name);
                let inner = found_at(first, of);
                Ok(inner)
            }
            AnyType::Array { .. } => Ok(None),
        }
    }

    /// What an index leads to, in an array with this index. It takes no memory; a number that would pass
    /// its range is answered as want of memory.
    pub fn item(self, nodes: u32, value: Value) -> Result<Option<Spot<'a>>, Memory>
        ensures { IfOk result (λ o. item_of nodes (seen self.entry) value ≡ option_map seen o) }
    {
        match self.of {
            AnyType::Simple(_) => Ok(None),
            AnyType::Record { .. } => Ok(None),
            AnyType::Array { index, item } => {
                if !index.has(nodes, value) {
                    return Ok(None);
                }
                let of = item.get();
                let each = size(nodes, of)?;
                let before = item_first(*index, value, each)?;
                let first = plus(self.first, before)?;
                Ok(Some(Spot { first, of }))
            }
        }
    }
}
