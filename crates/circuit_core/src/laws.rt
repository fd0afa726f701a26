//! What holds of circuits that grow: laws, on a function that does nothing.

ghost use Rattle.circuit_core.specs.Network.{Network};
ghost use Rattle.circuit_core.specs.Growth.{KeepsEdges, Grows};

/// What several calls leave of a circuit, one after the other, is what each of them leaves.
pub fn growth_goes_on()
    ensures same { (c : Network) → KeepsEdges c c }
    ensures keeps { (old mid new : Network) → KeepsEdges old mid → KeepsEdges mid new → KeepsEdges old new }
    ensures grows { (old mid new : Network) → Grows old mid → Grows mid new → Grows old new }
{}
