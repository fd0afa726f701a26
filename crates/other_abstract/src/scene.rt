//! A state of a window, as terms are evaluated in it.

ghost use Rattle.std.specs.Prelude.{◌≡◌, ◌≤◌, ◌+◌, IsTrue};
ghost use Rattle.std.specs.List.{list_all};
ghost use Rattle.other_abstract.specs.Windows.{node_number, is_in_window};

use crate::node::AbsNode;
use crate::value::AbsValue;
use term_core::machine::CellFamily;

/// The values of the cells of a window, and its nodes: the kept ones, then the fired ones.
#[derive(Clone, Copy)]
pub struct Scene<'a> {
    pub kept: u8,
    pub fired: u8,
    pub families: &'a [CellFamily],
    pub cells: &'a [AbsValue],
    pub nodes: &'a [AbsNode],
}
