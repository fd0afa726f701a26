//! What formulas and instances say: laws, each on a function that does nothing.
ghost use Rattle.lemma_strengthen.specs.Laws.{FormulasSayPieces, InstancesHaveValues, InstancesSayBody};

use term_core::laws::{lists_are_in_order, placing_keeps_values};

/// The formulas of pieces hold together exactly where the pieces do.
pub fn formulas_say_what_pieces_say()
    ensures { FormulasSayPieces }
{
    placing_keeps_values();
}

/// The instances of a formula over a window say what its body says of the window's nodes.
pub fn instances_say_what_bodies_say()
    ensures values { InstancesHaveValues }
    ensures all { InstancesSayBody }
{
    placing_keeps_values();
    lists_are_in_order();
}
