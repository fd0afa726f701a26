//! The first designator that writes a slot, by the bound variables that its node indices are.

#![tactic(auto, using(crate::proofs::FirstEquations::firsts))]

ghost use Rattle.std.specs.Prelude.{◌≡◌, [], Some, option_and_then, IfOk};
ghost use Rattle.rule_inline.specs.Tables.{axis_in};
ghost use Rattle.rule_parts.specs.Seen.{seen_slot, seen_spot};
ghost use Rattle.rule_parts.specs.Layers.{first_of, written_first, left_first, if_own_axis};

use crate::fit::fit_of;
use crate::layer::Layer;
use crate::place::{Slot, Spot, axis_in, marks_of};
use sqlite_items::Items;
use std::alloc::Global;
use term_core::term::Term;
use term_core::text::Memory;

fn none_marked(alloc: Global) -> Option<Items<Option<u32>>>
    ensures { result ≡ Some [] }
{
    Some(Items::new(alloc))
}

fn first_written(
    alloc: Global,
    frame: u32,
    spot: &Spot,
    slot: &Slot,
) -> Result<Option<Items<Option<u32>>>, Memory>
    ensures { IfOk result (λ m. m ≡ written_first frame (seen_spot spot.now) (seen_slot slot.now)) }
{
    match slot {
        Slot::Family { owner, path, key } => {
            match fit_of(alloc, spot, frame, *owner, path.as_slice(), key.as_slice())? {
                None => Ok(None),
                Some(_) => {
                    let marks = marks_of(alloc, spot.at.as_slice())?;
                    Ok(Some(marks))
                }
            }
        }
        Slot::Leaving => Ok(None),
        Slot::Result => Ok(None),
    }
}

fn first_left(alloc: Global, of: &Option<Term>, slot: &Slot) -> Option<Items<Option<u32>>>
    ensures { result ≡ left_first of.now (seen_slot slot.now) }
{
    match slot {
        Slot::Leaving => none_marked(alloc),
        Slot::Result => match of {
            Some(_) => none_marked(alloc),
            None => None,
        },
        Slot::Family { .. } => None,
    }
}

/// For each node index of the first designator that writes a slot, the bound variable that it is itself, if
/// it is one; or that nothing writes the slot.
pub fn first(
    alloc: Global,
    layer: &Layer,
    slot: &Slot,
) -> Result<Option<Items<Option<u32>>>, Memory>
    ensures { IfOk result (λ m. m ≡ first_of layer.now (seen_slot slot.now)) }
{
    match layer {
        Layer::First { .. } | Layer::Under { .. } | Layer::Nothing { .. } | Layer::Entered { .. } =>
            Ok(None),
        Layer::Then {
            first: a,
            second: b,
        } => match first(alloc, a, slot)? {
            Some(marks) => Ok(Some(marks)),
            None => {
                let m = first(alloc, b, slot)?;
                Ok(m)
            }
        },
        Layer::Branch { taken, other, .. } => match first(alloc, taken, slot)? {
            Some(marks) => Ok(Some(marks)),
            None => {
                let m = first(alloc, other, slot)?;
                Ok(m)
            }
        },
        Layer::Written { frame, spot, .. } => {
            let m = first_written(alloc, *frame, spot, slot)?;
            Ok(m)
        }
        Layer::Left { result, .. } => Ok(first_left(alloc, result, slot)),
        Layer::Chosen { chain, .. } => {
            let m = first(alloc, chain, slot)?;
            Ok(m)
        }
        Layer::Kept { after, .. } => {
            let m = first(alloc, after, slot)?;
            Ok(m)
        }
        Layer::Closed { frame, body, .. } => {
            let m = first(alloc, body, slot)?;
            let m = at_own_axis(*frame, m)?;
            Ok(m)
        }
        Layer::Back { body, .. } => match slot {
            Slot::Family { .. } => {
                let m = first(alloc, body, slot)?;
                Ok(m)
            }
            Slot::Leaving | Slot::Result => Ok(None),
        },
    }
}

/// The axis at which a loop keeps to its own cells, by the first designator that writes them.
fn axis_of(variable: u32, m: &Option<Items<Option<u32>>>) -> Result<Option<u32>, Memory>
    ensures { IfOk result (λ k. k ≡ option_and_then (axis_in variable) m.now) }
{
    match m {
        None => Ok(None),
        Some(marks) => {
            let k = axis_in(variable, marks.as_slice())?;
            Ok(k)
        }
    }
}

fn at_own_axis(
    variable: u32,
    m: Option<Items<Option<u32>>>,
) -> Result<Option<Items<Option<u32>>>, Memory>
    ensures { IfOk result (λ out. out ≡ if_own_axis variable m) }
{
    match axis_of(variable, &m)? {
        None => Ok(None),
        Some(_) => Ok(m),
    }
}

/// The axis of a written family at which a loop keeps to its own cells.
pub fn own_axis(
    alloc: Global,
    body: &Layer,
    variable: u32,
    slot: &Slot,
) -> Result<Option<u32>, Memory>
    ensures { IfOk result (λ k. k ≡ option_and_then (axis_in variable) (first_of body.now (seen_slot slot.now))) }
{
    let m = first(alloc, body, slot)?;
    let k = axis_of(variable, &m)?;
    Ok(k)
}
