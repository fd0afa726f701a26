//! Where the indices of a read may lead.

ghost use Rattle.std.specs.Prelude.{◌≡◌, Bool, ◌||◌, IfOk, OnOk};
ghost use Rattle.std.specs.List.{list_any};
ghost use Rattle.other_abstract.specs.Lists.{led_by, led_after};

use crate::node::AbsNode;
use crate::value::AbsValue;
use sqlite_items::Items;
use std::alloc::Global;
use term_core::text::Memory;

/// Where indices lead: to the cell at window nodes, to some cell of the family, or to none.
#[derive(Drop)]
pub enum Lead {
    At(Items<AbsNode>),
    Anywhere,
    Nowhere,
}

impl Lead {
    /// Where indices lead after one more node.
    fn led_by(&self, alloc: Global, node: AbsNode) -> Result<Lead, Memory>
        ensures { IfOk result (λ out. out ≡ led_by self.now node) }
    {
        match self {
            Lead::Nowhere => Ok(Lead::Nowhere),
            Lead::Anywhere => Ok(Lead::Anywhere),
            Lead::At(nodes) => match node {
                AbsNode::Other => Ok(Lead::Anywhere),
                _ => {
                    let mut more = Items::from_slice(alloc, nodes.as_slice())?;
                    more.push(node)?;
                    Ok(Lead::At(more))
                }
            },
        }
    }

    /// Where indices lead after one more, of this value: one that is no node leads to none.
    pub fn led_after(&self, alloc: Global, value: AbsValue) -> Result<Lead, Memory>
        ensures { IfOk result (λ out. out ≡ led_after self.now value) }
    {
        match value {
            AbsValue::Node(node) => {
                let out = self.led_by(alloc, node)?;
                Ok(out)
            }
            _ => Ok(Lead::Nowhere),
        }
    }
}

/// Adds where indices lead after one more, of each of these values.
fn extend(
    alloc: Global,
    out: &mut Vec<Lead>,
    lead: &Lead,
    values: &[AbsValue],
) -> Result<(), Memory>
    ensures { OnOk result ((q : Lead → Bool) → list_any q out.new.items
        ≡ (list_any q out.old.items || list_any (λ v. q (led_after lead.now v)) values.now)) }
{
    for value in values {
        let next = lead.led_after(alloc, *value)?;
        out.push(next)?;
    }
    Ok(())
}

/// Where indices lead after one more, of one of these values.
pub fn extended(alloc: Global, leads: &[Lead], values: &[AbsValue]) -> Result<Vec<Lead>, Memory>
    ensures { IfOk result (λ out. (q : Lead → Bool) → list_any q out.items
        ≡ list_any (λ r. list_any (λ v. q (led_after r v)) values.now) leads.now) }
{
    let mut out = Vec::new(alloc);
    for lead in leads {
        extend(alloc, &mut out, lead, values)?;
    }
    Ok(out)
}
