//! Lists of any items.
#![tactic(auto, using(crate::proofs::ListLemmas::lists))]

ghost use Rattle.std.specs.Prelude.{◌≡◌, take, IfOk};

use murphi_ast::text::Memory;
use murphi_typed::protocol::Parameter;
use sqlite_items::Items;
use std::alloc::Global;

/// The first items of a list.
pub fn shorten<T: Drop>(list: &mut Items<T>, length: usize)
    ensures { list.new ≡ take length list.old }
{
    while length < list.len() {
        let _last = list.pop();
    }
}

/// Parameters equal to these.
pub fn copy_parameters(alloc: Global, all: &[Parameter]) -> Result<Items<Parameter>, Memory>
    ensures { IfOk result (λ out. out ≡ all.now) }
{
    let mut out = Items::new(alloc);
    for one in all {
        let name = one.name.copy(alloc)?;
        out.push(Parameter {
            name,
            over: one.over,
        })?;
    }
    Ok(out)
}
