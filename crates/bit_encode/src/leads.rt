//! Where the indices of a read may lead, each lead with its edge.

#![tactic(auto, using(crate::proofs::Growing::growing, crate::proofs::LeadLemmas::leading))]

ghost use Rattle.std.specs.Prelude.{◌≡◌, ◌&&◌, ◌||◌, ◌<◌, ℕ, Bool, [], length, IfOk, IfSome, IsTrue, OnOk};
ghost use Rattle.std.specs.List.{slice_index_or};
ghost use Rattle.circuit_core.specs.declared.edge.Edge.{Edge as EdgeOf};
ghost use Rattle.circuit_core.specs.Network.{IsEdge};
ghost use Rattle.circuit_core.specs.Growth.{KeepsEdges};
ghost use Rattle.other_abstract.specs.declared.lead.Lead.{Lead as LeadOf};
ghost use Rattle.other_abstract.specs.declared.lead.Lead.TheVariants.{At};
ghost use Rattle.other_abstract.specs.Lists.{led_after};
ghost use Rattle.bit_encode.specs.declared.leads.PossibleLead.{PossibleLead as PossibleLeadOf};
ghost use Rattle.bit_encode.specs.MaySets.{Agrees, HasEdges, held};
ghost use Rattle.bit_encode.specs.Leads.{held_lead, HasLeadEdges};

use crate::gates::{both, either};
use crate::set::Possible;
use circuit_core::{Circuit, Edge, Memory};
use other_abstract::lead::Lead;
use other_abstract::value::AbsValue;
use sqlite_items::Items;
use std::alloc::Global;
use std::marker::Model;

/// Where indices lead, and the edge that is true where they may lead there.
#[derive(Drop)]
pub struct PossibleLead {
    pub lead: Lead,
    pub edge: Edge,
}

/// Where indices may lead. Contracts see the list of leads with their edges.
#[derive(Drop)]
pub struct LeadSet {
    members: Vec<PossibleLead>,
}

impl Model for LeadSet {
    ghost use Rattle.std.specs.Prelude.{List};
    ghost use Rattle.bit_encode.specs.declared.leads.PossibleLead.{PossibleLead};

    ghost Value = { List PossibleLead };

    ghost view = { λ s. s.members.items };
}

/// Whether two leads are one, and lead to no cell in particular.
fn are_one(a: &Lead, b: &Lead) -> bool
    ensures { IsTrue result → a.now ≡ b.now }
{
    match (a, b) {
        (Lead::Anywhere, Lead::Anywhere) => true,
        (Lead::Nowhere, Lead::Nowhere) => true,
        _ => false,
    }
}

impl LeadSet {
    /// No leads. It takes no memory.
    pub fn make(alloc: Global) -> LeadSet
        ensures { result ≡ [] }
    {
        LeadSet {
            members: Vec::new(alloc),
        }
    }

    /// The leads with their edges.
    pub fn members(&self) -> &[PossibleLead]
        ensures { result.now ≡ self.now }
    {
        self.members.as_slice()
    }

    /// Where a lead to no cell in particular stands.
    fn place_of(&self, lead: &Lead) -> Option<usize>
        ensures within { IfSome result (λ i. i < length self.now) }
        ensures same { IfSome result (λ i. (d : PossibleLeadOf) → (slice_index_or self.now i d).lead ≡ lead.now) }
    {
        for i in 0..self.members.len() {
            if are_one(&self.members[i].lead, lead) {
                return Some(i);
            }
        }
        None
    }

    /// Adds a lead under an edge: one to no cell in particular that is there is possible under the old edge or the
    /// new one.
    pub fn add(&mut self, circuit: &mut Circuit, lead: Lead, edge: Edge) -> Result<(), Memory>
        requires edge { IsEdge circuit.old edge }
        requires edges { HasLeadEdges circuit.old self.old }
        ensures edges { OnOk result (HasLeadEdges circuit.new self.new) }
        ensures value { OnOk result ((x : ℕ → Bool) (val : EdgeOf → Bool) (q : LeadOf → Bool)
            → Agrees circuit.new x val → held_lead val q self.new ≡ (held_lead val q self.old || (q lead && val edge))) }
        ensures keeps { KeepsEdges circuit.old circuit.new }
    {
        match self.place_of(&lead) {
            Some(i) => {
                let old = self.members[i].edge;
                let wide = either(circuit, old, edge)?;
                self.members[i].edge = wide;
            }
            None => self.members.push(PossibleLead { lead, edge })?,
        }
        Ok(())
    }

    /// Adds a lead under two edges.
    pub fn add_under(
        &mut self,
        circuit: &mut Circuit,
        lead: Lead,
        under: Edge,
        edge: Edge,
    ) -> Result<(), Memory>
        requires under { IsEdge circuit.old under }
        requires edge { IsEdge circuit.old edge }
        requires edges { HasLeadEdges circuit.old self.old }
        ensures edges { OnOk result (HasLeadEdges circuit.new self.new) }
        ensures value { OnOk result ((x : ℕ → Bool) (val : EdgeOf → Bool) (q : LeadOf → Bool)
            → Agrees circuit.new x val
            → held_lead val q self.new ≡ (held_lead val q self.old || (q lead && (val under && val edge)))) }
        ensures keeps { KeepsEdges circuit.old circuit.new }
    {
        let here = both(circuit, under, edge)?;
        self.add(circuit, lead, here)
    }
}

/// Where no index leads: to the cell without indices.
pub fn no_index(alloc: Global, circuit: &mut Circuit) -> Result<LeadSet, Memory>
    ensures edges { IfOk result (λ out. HasLeadEdges circuit.new out) }
    ensures value { IfOk result (λ out. (x : ℕ → Bool) (val : EdgeOf → Bool) (q : LeadOf → Bool)
        → Agrees circuit.new x val → held_lead val q out ≡ q (At [])) }
    ensures keeps { KeepsEdges circuit.old circuit.new }
{
    let mut out = LeadSet::make(alloc);
    out.add(circuit, Lead::At(Items::new(alloc)), Circuit::truth(true))?;
    Ok(out)
}

/// Where indices lead after one more, of this value.
fn led(alloc: Global, lead: &Lead, value: AbsValue) -> Result<Lead, Memory>
    ensures { IfOk result (λ out. out ≡ led_after lead.now value) }
{
    match lead.led_after(alloc, value) {
        Ok(next) => Ok(next),
        Err(_) => Err(Memory),
    }
}

/// Adds where indices lead after one more, of this value.
fn add_after(
    alloc: Global,
    circuit: &mut Circuit,
    out: &mut LeadSet,
    lead: &PossibleLead,
    one: Possible,
) -> Result<(), Memory>
    requires lead { IsEdge circuit.old lead.now.edge }
    requires edge { IsEdge circuit.old one.edge }
    requires edges { HasLeadEdges circuit.old out.old }
    ensures edges { OnOk result (HasLeadEdges circuit.new out.new) }
    ensures value { OnOk result ((x : ℕ → Bool) (val : EdgeOf → Bool) (q : LeadOf → Bool)
        → Agrees circuit.new x val → held_lead val q out.new
        ≡ (held_lead val q out.old || (q (led_after lead.now.lead one.value) && (val lead.now.edge && val one.edge)))) }
    ensures keeps { KeepsEdges circuit.old circuit.new }
{
    let next = led(alloc, &lead.lead, one.value)?;
    out.add_under(circuit, next, lead.edge, one.edge)
}

/// Adds where indices lead after one more, of each of these values.
fn extend(
    alloc: Global,
    circuit: &mut Circuit,
    out: &mut LeadSet,
    lead: &PossibleLead,
    values: &[Possible],
) -> Result<(), Memory>
    requires lead { IsEdge circuit.old lead.now.edge }
    requires values { HasEdges circuit.old values.now }
    requires edges { HasLeadEdges circuit.old out.old }
    ensures edges { OnOk result (HasLeadEdges circuit.new out.new) }
    ensures value { OnOk result ((x : ℕ → Bool) (val : EdgeOf → Bool) (q : LeadOf → Bool)
        → Agrees circuit.new x val → held_lead val q out.new
        ≡ (held_lead val q out.old || (held val (λ v. q (led_after lead.now.lead v)) values.now && val lead.now.edge))) }
    ensures keeps { KeepsEdges circuit.old circuit.new }
{
    for one in values {
        add_after(alloc, circuit, out, lead, *one)?;
    }
    Ok(())
}

/// Where indices may lead after one more, of one of these values.
pub fn extended(
    alloc: Global,
    circuit: &mut Circuit,
    leads: &[PossibleLead],
    values: &[Possible],
) -> Result<LeadSet, Memory>
    requires leads { HasLeadEdges circuit.old leads.now }
    requires values { HasEdges circuit.old values.now }
    ensures edges { IfOk result (λ out. HasLeadEdges circuit.new out) }
    ensures value { IfOk result (λ out. (x : ℕ → Bool) (val : EdgeOf → Bool) (q : LeadOf → Bool)
        → Agrees circuit.new x val
        → held_lead val q out ≡ held_lead val (λ r. held val (λ v. q (led_after r v)) values.now) leads.now) }
    ensures keeps { KeepsEdges circuit.old circuit.new }
{
    let mut out = LeadSet::make(alloc);
    for lead in leads {
        extend(alloc, circuit, &mut out, lead, values)?;
    }
    Ok(out)
}
