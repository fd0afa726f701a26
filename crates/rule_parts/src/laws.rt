//! What layers stand for: a law, on a function that does nothing.

ghost use Rattle.std.specs.Prelude.{◌≡◌, List};
ghost use Rattle.rule_inline.specs.Machine.{CellsOf};
ghost use Rattle.rule_inline.specs.Tables.{Slot};
ghost use Rattle.rule_parts.specs.declared.layer.Layer.{Layer};
ghost use Rattle.rule_parts.specs.Layers.{seen_layer, first_of};

/// The marks of the first designator that writes a slot, as `first` gives them, are those of the change that
/// a layer stands for, whatever the families are.
pub fn first_writes_are_of_the_change()
    ensures marks { (fs : List CellsOf) → (x : Layer) → (slot : Slot) → (seen_layer x fs).first slot ≡ first_of x slot }
{}
