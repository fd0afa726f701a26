//! How many cells a typed protocol has with a number of nodes.
#![tactic(auto, using(crate::proofs::CountEquations::counts))]

ghost use Rattle.std.specs.Prelude.{◌≡◌, length};
ghost use Rattle.murphi_typed.specs.Families.{cells};
ghost use Rattle.murphi_types.specs.Weights.{stopped};
ghost use Rattle.type_cells.specs.Counts.{value_count, cell_count, list_count, variables_count};

use murphi_typed::protocol::{Typed, Variable};
use murphi_typed::types::{AnyType, Field, Simple};
use type_forms::written::turns;
use type_parts::weights::{plus, times};

fn value_count(nodes: u32, of: Simple) -> u64
    ensures { result ≡ value_count nodes of }
{
    match of {
        Simple::Node => nodes as u64,
        Simple::Truth => 2,
        Simple::Range { .. } => turns(Some(of)),
        Simple::Listed { count, .. } => count as u64,
        Simple::Scalarset { count, .. } => count as u64,
    }
}

#[cycle(count)]
fn count_of(nodes: u32, of: &AnyType) -> u64
    ensures { result ≡ stopped (cell_count nodes of.now) }
{
    match of {
        AnyType::Simple(_) => 1,
        AnyType::Record { fields } => count_fields(nodes, fields.as_slice()),
        AnyType::Array { index, item } => {
            let inner = count_of(nodes, item.get());
            times(value_count(nodes, *index), inner)
        }
    }
}

#[cycle(count)]
fn count_fields(nodes: u32, all: &[Field]) -> u64
    ensures { result ≡ stopped (list_count nodes all.now) }
{
    let mut count = 0;
    for one in all {
        let more = count_of(nodes, &one.of);
        count = plus(count, more);
    }
    count
}

fn count_variables(nodes: u32, all: &[Variable]) -> u64
    ensures { result ≡ stopped (variables_count nodes all.now) }
{
    let mut count = 0;
    for one in all {
        let more = count_of(nodes, &one.of);
        count = plus(count, more);
    }
    count
}

/// The number of cells with so many nodes, or the greatest u64 where that is less. It takes no memory.
pub fn cell_count(typed: &Typed, nodes: u32) -> u64
    ensures { result ≡ stopped (length (cells nodes typed.now)) }
{
    count_variables(nodes, typed.globals.as_slice())
}
