//! Where the blocks of variables begin that stand one behind the other.

ghost use Rattle.std.specs.Prelude.{◌≡◌, IfOk};
ghost use Rattle.murphi_run.specs.Blocks.{firsts_from, sizes};

use crate::layout::{plus, size};
use murphi_ast::text::Memory;
use murphi_typed::protocol::Variable;
use sqlite_items::Items;
use std::alloc::Global;

/// How many cells variables have together, with so many nodes.
pub fn sizes(nodes: u32, all: &[Variable]) -> Result<usize, Memory>
    ensures { IfOk result (λ n. n ≡ sizes nodes all.now) }
{
    let mut count = 0;
    for one in all {
        let more = size(nodes, &one.of)?;
        count = plus(count, more)?;
    }
    Ok(count)
}

/// The number of the first cell of each variable, where the first of them begins at this number.
pub fn firsts(
    alloc: Global,
    nodes: u32,
    first: usize,
    all: &[Variable],
) -> Result<Items<usize>, Memory>
    ensures { IfOk result (λ out. out ≡ firsts_from nodes first all.now) }
{
    let mut next = first;
    let mut out = Items::new(alloc);
    for one in all {
        out.push(next)?;
        let more = size(nodes, &one.of)?;
        next = plus(next, more)?;
    }
    Ok(out)
}
