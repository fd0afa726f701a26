//! Where the cells of a window stand in the list of its cells.

#![tactic(auto, using(crate::proofs::PlacingLemmas::placing))]

ghost use Rattle.std.specs.Prelude.{◌≡◌, ◌<◌, ◌≤◌, ◌+◌, ◌^◌, ℕ, length};
ghost use Rattle.std.specs.Prelude.{SomeIff, IsTrue};
ghost use Rattle.term_core.specs.Cells.{is_cell, place_of};
ghost use Rattle.other_abstract.specs.Windows.{size};
ghost use Rattle.other_abstract.specs.May.{AbsCells, value_at};
ghost use Rattle.other_abstract.specs.Lists.{window_in};
ghost use Rattle.bit_encode.specs.Leads.{placed_value, numbers_of};

use other_abstract::node::AbsNode;
use other_abstract::read::{choice_place, first_place, is_cell};
use other_abstract::scene::Scene;

/// The sum of two places, if there are both and it is less than 2^64.
fn sum_of(first: Option<usize>, choice: Option<usize>) -> Option<usize>
    ensures { (f c : ℕ) → SomeIff first (f < 2 ^ 64) f → SomeIff choice (c < 2 ^ 64) c
        → SomeIff result (f + c < 2 ^ 64) (f + c) }
{
    match (first, choice) {
        (Some(first), Some(choice)) => first.checked_add(choice),
        _ => None,
    }
}

/// The place of the cell of a family at these nodes in the list of the window's cells; none where there is no
/// such cell, or where its place is past 2^64.
pub fn cell_place(scene: &Scene, family: usize, nodes: &[AbsNode]) -> Option<usize>
    requires { 1 ≤ size (window_in scene.now) }
    ensures place { let W = window_in scene.now in let at = numbers_of W nodes.now in SomeIff result
        (IsTrue (is_cell (size W) W.families family at) × (place_of (size W) W.families family at < 2 ^ 64))
        (place_of (size W) W.families family at) }
    ensures value { (w : AbsCells) → length w < 2 ^ 64
        → placed_value w result ≡ value_at (window_in scene.now) w family nodes.now }
{
    if is_cell(scene, family, nodes) {
        let first = first_place(scene, family);
        let choice = choice_place(scene, nodes);
        sum_of(first, choice)
    } else {
        None
    }
}
