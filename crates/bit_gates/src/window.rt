//! The coded cells of windows, and what a window asks by itself.

#![tactic(auto, using(crate::proofs::Growing::growing, crate::proofs::WindowLemmas::windows))]

ghost use Rattle.std.specs.Prelude.{◌≡◌, ◌+◌, ◌&&◌, ℕ, suc, Bool, IfOk, OnOk};
ghost use Rattle.circuit_core.specs.declared.edge.Edge.{Edge as EdgeOf};
ghost use Rattle.circuit_core.specs.Network.{IsEdge};
ghost use Rattle.circuit_core.specs.Growth.{KeepsEdges};
ghost use Rattle.other_abstract.specs.Lists.{window_in, IsScene};
ghost use Rattle.other_abstract.specs.Machines.{window as window_of};
ghost use Rattle.other_abstract.specs.Making.{IsMade};
ghost use Rattle.other_abstract.specs.Stepping.{all_may_hold};
ghost use Rattle.other_abstract.specs.Tests.{window_nodes};
ghost use Rattle.bit_encode.specs.MaySets.{Agrees};
ghost use Rattle.bit_encode.specs.Coding.{HasCells, legal_edges};
ghost use Rattle.bit_encode.specs.Steps.{TellsBoth, are_left};
ghost use Rattle.bit_layout.specs.Layout.{bits_in, window_place};
ghost use Rattle.bit_gates.specs.Inputs.{IsWindowOf, AreWindows};

use crate::gates::both;
use bit_encode::cell::legal;
use bit_encode::facts::all_may_hold;
use bit_encode::read::CodedScene;
use bit_encode::set::MaySet;
use bit_encode::step::all_left;
use bit_encode::window::coded_window;
use circuit_core::{Circuit, Edge, Memory};
use other_abstract::machine::AbstractMachine;
use other_abstract::node::AbsNode;
use other_abstract::place::Place;
use other_abstract::places::window_nodes;
use other_abstract::scene::Scene;
use std::alloc::Global;

/// A window with so many fired nodes: its nodes, and a set for each of its cells.
#[derive(Drop)]
pub struct CodedWindow {
    pub fired: u8,
    pub nodes: Vec<AbsNode>,
    pub cells: Vec<MaySet>,
}

/// What a window asks by itself: where its code is legal, and where it is ready, the kept state before the step
/// being its own and all formulas holding in it.
#[derive(Clone, Copy)]
pub struct Opened {
    pub legal: Edge,
    pub ready: Edge,
}

/// The scene of a window, without its cells.
fn bare_scene<'a>(machine: &'a AbstractMachine, fired: u8, nodes: &'a [AbsNode]) -> Scene<'a>
    requires made { IsMade machine.now }
    requires nodes { nodes.now ≡ window_nodes (window_of machine.now fired) }
    ensures window { window_in result ≡ window_of machine.now fired }
    ensures scene { IsScene result }
{
    Scene {
        kept: machine.kept(),
        fired,
        families: machine.machine().families.as_slice(),
        cells: &[],
        nodes,
    }
}

/// The scene of a coded window.
pub fn scene<'a>(machine: &'a AbstractMachine, window: &'a CodedWindow) -> CodedScene<'a>
    requires made { IsMade machine.now }
    requires nodes { window.now.nodes.items ≡ window_nodes (window_of machine.now window.now.fired) }
    ensures window { window_in result.window ≡ window_of machine.now window.now.fired }
    ensures scene { IsScene result.window }
    ensures cells { result.cells.now ≡ window.now.cells.items }
{
    let bare = bare_scene(machine, window.fired, window.nodes.as_slice());
    CodedScene {
        window: bare,
        cells: window.cells.as_slice(),
    }
}

/// Fresh inputs that code a state of the window with so many fired nodes.
pub fn coded(
    alloc: Global,
    circuit: &mut Circuit,
    machine: &AbstractMachine,
    fired: u8,
) -> Result<CodedWindow, Memory>
    requires made { IsMade machine.now }
    ensures window { IfOk result (λ w. IsWindowOf machine.now circuit.new w fired circuit.old.inputs) }
    ensures inputs { OnOk result (circuit.new.inputs ≡ circuit.old.inputs + bits_in machine.now fired) }
    ensures keeps { KeepsEdges circuit.old circuit.new }
{
    let nodes = match window_nodes(alloc, machine.kept(), fired) {
        Ok(nodes) => nodes,
        Err(_) => return Err(Memory),
    };
    let bare = bare_scene(machine, fired, nodes.as_slice());
    let cells = coded_window(alloc, circuit, &bare)?;
    Ok(CodedWindow {
        fired,
        nodes,
        cells,
    })
}

/// Adds the window with so many fired nodes, of which there are those with fewer.
fn add_window(
    alloc: Global,
    circuit: &mut Circuit,
    machine: &AbstractMachine,
    fired: u8,
    out: &mut Vec<CodedWindow>,
) -> Result<(), Memory>
    requires made { IsMade machine.now }
    requires place { circuit.old.inputs ≡ window_place machine.now fired }
    requires windows { AreWindows machine.now circuit.old out.old.items fired }
    ensures windows { OnOk result (AreWindows machine.now circuit.new out.new.items (suc fired)) }
    ensures inputs { OnOk result (circuit.new.inputs ≡ window_place machine.now (suc fired)) }
    ensures keeps { KeepsEdges circuit.old circuit.new }
{
    let window = coded(alloc, circuit, machine, fired)?;
    out.push(window)?;
    Ok(())
}

/// Fresh inputs that code a state of each window with up to so many fired nodes.
pub fn coded_all(
    alloc: Global,
    circuit: &mut Circuit,
    machine: &AbstractMachine,
    most: u8,
) -> Result<Vec<CodedWindow>, Memory>
    requires made { IsMade machine.now }
    requires place { circuit.old.inputs ≡ window_place machine.now 0 }
    ensures windows { IfOk result (λ out. AreWindows machine.now circuit.new out.items (suc most)) }
    ensures inputs { OnOk result (circuit.new.inputs ≡ window_place machine.now (suc most)) }
    ensures keeps { KeepsEdges circuit.old circuit.new }
{
    let mut out = Vec::new(alloc);
    for fired in 0..most {
        add_window(alloc, circuit, machine, fired, &mut out)?;
    }
    add_window(alloc, circuit, machine, most, &mut out)?;
    Ok(out)
}

/// What a window asks by itself, before a step from a kept state.
pub fn asked(
    alloc: Global,
    circuit: &mut Circuit,
    machine: &AbstractMachine,
    wide: &CodedScene,
    before: &CodedScene,
    places: &[Place],
) -> Result<Opened, Memory>
    requires wide { IsScene wide.now.window }
    requires before { IsScene before.now.window }
    requires wide_cells { HasCells circuit.old wide.now.cells.now }
    requires before_cells { HasCells circuit.old before.now.cells.now }
    ensures legal_edge { IfOk result (λ o. IsEdge circuit.new o.legal) }
    ensures ready_edge { IfOk result (λ o. IsEdge circuit.new o.ready) }
    ensures legal { IfOk result (λ o. (x : ℕ → Bool) (val : EdgeOf → Bool) → Agrees circuit.new x val
        → val o.legal ≡ legal_edges val wide.now.cells.now) }
    ensures opens { IfOk result (λ o. TellsBoth circuit.new wide.now.cells.now before.now.cells.now o.ready
        (λ w s. are_left (window_in wide.now.window) (window_in before.now.window) w s places.now
        && all_may_hold (window_in wide.now.window) w machine.now.formulas)) }
    ensures keeps { KeepsEdges circuit.old circuit.new }
{
    let legal = legal(circuit, wide.cells)?;
    let left = all_left(alloc, circuit, wide, before, places)?;
    let assumed = all_may_hold(alloc, circuit, wide, machine.formulas())?;
    let ready = both(circuit, left, assumed)?;
    Ok(Opened { legal, ready })
}
