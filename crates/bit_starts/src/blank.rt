//! The state of a window before anything is written.

#![tactic(auto, using(crate::proofs::BlankLemmas::blanks))]

ghost use Rattle.std.specs.Prelude.{◌≡◌, map, IfOk};
ghost use Rattle.other_abstract.specs.declared.place.Place.{Place as PlaceOf};
ghost use Rattle.other_abstract.specs.Machines.{window, blank, blank_of};
ghost use Rattle.other_abstract.specs.Tests.{window_nodes};

use circuit_core::Memory;
use other_abstract::machine::AbstractMachine;
use other_abstract::place::Place;
use other_abstract::places::{places_in, window_nodes};
use other_abstract::starting::blank_of;
use other_abstract::state::AbsState;
use other_abstract::value::AbsValue;
use sqlite_items::Items;
use std::alloc::Global;
use term_core::machine::CellFamily;

/// The values of these cells before anything is written.
fn blank_values(
    alloc: Global,
    families: &[CellFamily],
    places: &[Place],
) -> Result<Vec<AbsValue>, Memory>
    ensures { IfOk result (λ out. out.items ≡ map (λ (place : PlaceOf). blank_of families.now place.family) places.now) }
{
    let mut out = Vec::new(alloc);
    for place in places {
        out.push(blank_of(families, place.family))?;
    }
    Ok(out)
}

/// The state of a window with so many fired nodes before anything is written.
pub fn blank_state(alloc: Global, machine: &AbstractMachine, fired: u8) -> Result<AbsState, Memory>
    ensures { IfOk result (λ out. out.values ≡ blank (window machine.now fired)) }
{
    let families = machine.machine().families.as_slice();
    let nodes = match window_nodes(alloc, machine.kept(), fired) {
        Ok(nodes) => nodes,
        Err(_) => return Err(Memory),
    };
    let places = match places_in(alloc, nodes.as_slice(), families) {
        Ok(places) => places,
        Err(_) => return Err(Memory),
    };
    let values = blank_values(alloc, families, places.as_slice())?;
    Ok(AbsState {
        values: Items::from_vec(values),
    })
}
