//! How many cells a variable of some type has, with one node.
#![tactic(auto, using(crate::proofs::LeafEquations::counts))]

ghost use Rattle.std.specs.Prelude.{◌≡◌};
ghost use Rattle.murphi_types.specs.Weights.{stopped};
ghost use Rattle.murphi_types.specs.Leaves.{leaves};
ghost use Rattle.type_declarations.specs.LeafLists.{list_leaves};

use murphi_typed::types::{AnyType, Field};
use type_forms::written::turns;
use type_parts::weights::{plus, times};

/// The cells of a variable of some type, with one node. The count stops at the greatest u64.
#[cycle(leaves)]
pub fn leaves(of: &AnyType) -> u64
    ensures { result ≡ stopped (leaves of.now) }
{
    match of {
        AnyType::Simple(_) => 1,
        AnyType::Record { fields } => {
            let count = field_leaves(fields.as_slice());
            count
        }
        AnyType::Array { index, item } => {
            let inner = leaves(item.get());
            times(turns(Some(*index)), inner)
        }
    }
}

#[cycle(leaves)]
fn field_leaves(all: &[Field]) -> u64
    ensures { result ≡ stopped (list_leaves all.now) }
{
    let mut count = 0;
    for one in all {
        let more = leaves(&one.of);
        count = plus(count, more);
    }
    count
}
