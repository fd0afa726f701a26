//! What items leave.

use murphi_typed::protocol::{Rule, Start, TypedFormula};
use murphi_types::fault::Fault;
use murphi_types::scope::Known;
use sqlite_items::Items;

/// What the items of a text leave: they themselves, what the text has declared after them, and their first
/// fault. Where there is one, the trees say nothing.
#[derive(Drop)]
pub struct JudgedItems {
    pub rules: Items<Rule>,
    pub starts: Items<Start>,
    pub invariants: Items<TypedFormula>,
    pub known: Known,
    pub fault: Option<Fault>,
}
