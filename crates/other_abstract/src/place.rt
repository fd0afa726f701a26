//! Cells at nodes of a window.

use crate::node::AbsNode;
use sqlite_items::Items;

/// A cell: its family by its number, and the nodes that are its indices.
#[derive(Drop)]
pub struct Place {
    pub family: usize,
    pub at: Items<AbsNode>,
}
